//! Worked cases, computed by the definitions that the contracts of `states` and `devices` use.
#![tactic(auto)]

ghost use Rattle.std.specs.Prelude.{◌≡◌, true};
ghost use Rattle.worked.specs.Cases.{cases};

/// Every worked case comes out as it should.
pub fn cases_stand()
    ensures { cases ≡ true }
{}
