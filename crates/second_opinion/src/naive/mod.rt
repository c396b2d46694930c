//! The naive implementation, written from the documents alone: tables, devices, the manager and the report of a trace.
//! It is a second opinion: none of its rules is taken from the library, nor from the naive code of `second`. Refusals go
//! by their numbers, as in the documents.
pub mod answer;
pub mod device;
pub mod early;
pub mod managed;
pub mod report;
pub mod table;
pub mod trace;
