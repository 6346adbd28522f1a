// The two counters of a drive, as one: what holds of the errors holds of the underruns.
ghost use Rattle.std.specs.Prelude.{◌≡◌, ℕ, refl};
ghost use Rattle.rules.specs.declared.drive.Drive.{Drive};
ghost use Rattle.rules.specs.Drive.{set_counts, error_counted, underrun_counted};
ghost use Rattle.rules.specs.Counter.{CounterLaws};

use crate::drive::{Drive, Errors, Underruns, one_more};

pub trait Counter {
    // The number of a counter, the one that a record holds, a record with another in its place, and one with one more counted.
    ghost number: { Self → ℕ };

    ghost held: { Drive → Self };

    ghost put: { Self → Drive → Drive };

    ghost counted: { Drive → Drive };

    fn number(self) -> u16
        ensures { result ≡ number self };

    fn count(drive: Drive) -> Drive
        ensures { result ≡ counted drive };

    // One more, up to the highest count and no further, and nothing else changed.
    ghost laws: { CounterLaws number held put counted };
}

impl Counter for Errors {
    ghost number = { λ e. e.0 };

    ghost held = { λ d. d.errors };

    ghost put = { λ e d. set_counts e d.underruns d };

    ghost counted = { error_counted };

    ghost laws = { record { one_more = λ d. refl; rest_stays = λ d. refl } };

    fn number(self) -> u16 {
        self.0
    }

    fn count(drive: Drive) -> Drive {
        Drive {
            errors: Errors(one_more(drive.errors.0)),
            ..drive
        }
    }
}

impl Counter for Underruns {
    ghost number = { λ u. u.0 };

    ghost held = { λ d. d.underruns };

    ghost put = { λ u d. set_counts d.errors u d };

    ghost counted = { underrun_counted };

    ghost laws = { record { one_more = λ d. refl; rest_stays = λ d. refl } };

    fn number(self) -> u16 {
        self.0
    }

    fn count(drive: Drive) -> Drive {
        Drive {
            underruns: Underruns(one_more(drive.underruns.0)),
            ..drive
        }
    }
}
