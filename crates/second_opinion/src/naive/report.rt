//! The report of a trace.
use crate::naive::answer::{Answer, GapText, Refusal};
use crate::naive::device::Device;
use crate::naive::early;
use crate::naive::early::Early;
use crate::naive::managed::Manager;
use crate::naive::trace::{Note, Record, Records};
use devices::Fault;
use manager::Step;
use std::alloc::{AllocError, Global};
use std::fmt;

/// Where and with which number a run stops; the number is what a report prints.
#[derive(Clone, Copy, Debug, PartialEq, Eq)]
pub struct Stop {
    pub place: usize,
    pub number: u8,
}

/// What a trace prints, how it stops if it does, and how many gap and jam lines it has.
#[derive(Debug, Drop)]
pub struct Report {
    pub text: String,
    pub end: Result<(), Stop>,
    pub gaps: u32,
    pub jams: u32,
}

/// The manager of a trace, the number of its device, the text so far and the jam lines in it.
#[derive(Debug, Drop)]
struct Run {
    number: u16,
    manager: Manager,
    text: String,
    jams: u32,
}

impl Refusal {
    /// A stop at a place with the refusal's number.
    pub(crate) fn at(self, place: usize) -> Stop {
        Stop {
            place,
            number: self.number,
        }
    }
}

impl fmt::Display for Stop {
    fn fmt<W: fmt::Write>(&self, f: &mut fmt::Formatter<W>) -> fmt::Result {
        let Stop { place, number } = *self;
        write!(f, "stop {place} {number}")
    }
}

impl Run {
    /// The run on the device that a trace opens with: its table, and a limit, if there is one.
    fn open(heap: Global, records: &mut Records) -> Result<Run, Early<Refusal>> {
        let Some(Record::Table { number, rows }) = records.next()? else {
            return Err(Early::Refused(Refusal::numbered(4)));
        };
        let mut device = Device::basic(heap, number, rows)?;
        let mut ahead = *records;
        if let Ok(Some(Record::Limit(limit))) = ahead.next() {
            device = Device::limited(heap, &device, limit)?;
            *records = ahead;
        }
        Ok(Run {
            number,
            manager: Manager::attach(heap, number, device),
            text: String::new(heap),
            jams: 0,
        })
    }

    /// Adds the device line, if the device was attached.
    fn start(&mut self) -> Result<(), Early<Refusal>> {
        self.manager.attached()?;
        let number = self.number;
        writeln!(self.text, "device {number}")?;
        Ok(())
    }

    /// Makes a call that prints nothing.
    fn call(&mut self, step: Step) -> Result<(), Early<Refusal>> {
        self.manager.take(step)?;
        Ok(())
    }

    /// Refuses a number other than the device's.
    fn check_number(&self, number: u16) -> Result<(), Refusal> {
        if number == self.number {
            Ok(())
        } else {
            Err(Refusal::numbered(25))
        }
    }

    /// Works ticks.
    fn ticks(&mut self, count: u32) -> Result<(), Early<Refusal>> {
        for _ in 0..count {
            self.call(Step::Tick)?;
        }
        Ok(())
    }

    /// Adds a jam line. It is written field by field: the text that the library gives a fault is what is compared with it.
    fn add_jam(&mut self, place: usize, jam: Fault) -> Result<(), AllocError> {
        let Fault {
            number,
            code,
            depth,
            from,
            to,
        } = jam;
        writeln!(self.text, "jam {place} {number} {code} {depth} {from} {to}")
    }

    /// Works a request, and adds a gap line, or a jam line where a fault holds the device up.
    fn request(&mut self, place: usize, number: u16, note: Note) -> Result<(), Early<Refusal>> {
        self.check_number(number)?;
        match self.manager.take(Step::Request) {
            Ok(Answer::Closed { gap, .. }) => {
                let gap = GapText(gap);
                writeln!(self.text, "gap {gap} {note}")?;
            }
            Err(Early::Refused(Refusal { jam: Some(jam), .. })) => {
                self.jams = self.jams.wrapping_add(1);
                self.add_jam(place, jam)?;
            }
            answer => {
                answer?;
            }
        }
        Ok(())
    }

    /// Works a release.
    fn release(&mut self, number: u16) -> Result<(), Early<Refusal>> {
        self.check_number(number)?;
        let count = self.manager.gaps();
        let manager = self.number;
        self.call(Step::Release { manager, count })
    }

    /// Works a record after the opening.
    fn work(&mut self, place: usize, record: Record) -> Result<(), Early<Refusal>> {
        // Records are read from a trace, so they are data and no closures.
        match record {
            Record::Ticks(count) => self.ticks(count),
            Record::Request { number, note } => self.request(place, number, note),
            Record::Release(number) => self.release(number),
            Record::Report { number, code } => self.call(Step::Report { number, code }),
            Record::Table { .. } | Record::Limit(_) => Err(Early::Refused(Refusal::numbered(4))),
        }
    }

    /// Adds the total line and the end line, if no bytes follow.
    fn end(&mut self, records: &Records) -> Result<(), Early<Stop>> {
        if records.left() > 0 {
            return Err(Early::Refused(Refusal::numbered(4).at(records.place())));
        }
        let figures = self.manager.figures();
        let clean = figures.clean;
        let floor = figures.floor;
        let stuck = figures.stuck;
        let busy = figures.busy;
        let open = figures.pending;
        let sum = clean
            .wrapping_add(stuck)
            .wrapping_add(busy)
            .wrapping_add(open);
        writeln!(
            self.text,
            "total {clean} {floor} {stuck} {busy} {open} {sum}\nend"
        )?;
        Ok(())
    }

    /// Works all records behind the opening. The first of them is read before the device is known to be attached.
    fn all(&mut self, records: &mut Records) -> Result<(), Early<Stop>> {
        let mut place = records.place();
        let mut next = records.next().map_err(|refusal| refusal.at(place))?;
        self.start().map_err(|early| early.at(0))?;
        // One record is read already, and each other takes at least four bytes: the break comes before the count is out.
        for _ in 0..=records.left() {
            let Some(record) = next else {
                break;
            };
            self.work(place, record).map_err(|early| early.at(place))?;
            place = records.place();
            next = records.next().map_err(|refusal| refusal.at(place))?;
        }
        self.end(records)
    }
}

/// A report that is a stop line only.
fn only_stop(heap: Global, stop: Stop) -> Result<Report, AllocError> {
    Ok(Report {
        text: format!(in heap; "{stop}\n")?,
        end: Err(stop),
        gaps: 0,
        jams: 0,
    })
}

/// The report of a trace.
pub(crate) fn report_of(heap: Global, trace: &[u8]) -> Result<Report, AllocError> {
    if trace.len() > 65_536 {
        return only_stop(heap, Refusal::numbered(5).at(65_536));
    }
    let mut records = Records::new(trace);
    let mut run = match early::outcome(Run::open(heap, &mut records))? {
        Ok(run) => run,
        Err(refusal) => return only_stop(heap, refusal.at(0)),
    };
    let end = early::outcome(run.all(&mut records))?;
    if let Err(stop) = end {
        writeln!(run.text, "{stop}")?;
    }
    Ok(Report {
        end,
        gaps: run.manager.gaps(),
        jams: run.jams,
        text: run.text,
    })
}
