// One drive's record and its moves: each takes the record and hands it back changed.
ghost use Rattle.std.specs.Prelude.{◌≡◌};
ghost use Rattle.rules.specs.Drive.{is_writing, is_reading, with_bit, no_bits, fresh_drive, was_reset, rewound, chosen, raised, latching, stopping};
ghost use Rattle.rules.specs.Drive.{in_mode, allowing, made, passed_to, cleared, counted, loaded_with, pulled, writes, reads};
ghost use Rattle.rules.specs.Late.{one_less};

#[derive(Clone, Copy)]
pub enum Mode {
    Idle,
    Writing,
    Reading,
}

// Asked by a name each: the book has a word for both.
impl Mode {
    pub fn is_writing(self) -> bool
        ensures { result ≡ is_writing self }
    {
        matches!(self, Mode::Writing)
    }

    pub fn is_reading(self) -> bool
        ensures { result ≡ is_reading self }
    {
        matches!(self, Mode::Reading)
    }
}

// The bits that stay until READ STATUS or RESET.
#[derive(Clone, Copy)]
pub enum Bit {
    Cni,
    Eom,
    Ude,
    Bnl,
    Fil,
    Ill,
    Ndt,
    Por,
}

#[derive(Clone, Copy, Default)]
pub struct Latched {
    pub cni: bool,
    pub eom: bool,
    pub ude: bool,
    pub bnl: bool,
    pub fil: bool,
    pub ill: bool,
    pub ndt: bool,
    pub por: bool,
}

// Two kinds of count that cannot be mixed up.
#[derive(Clone, Copy)]
pub struct Errors(pub u16);

#[derive(Clone, Copy)]
pub struct Underruns(pub u16);

// Wide fields first, so that no room is lost between them: a record is copied with each event.
#[derive(Clone, Copy)]
pub struct Drive {
    pub head: usize,
    pub errors: Errors,
    pub underruns: Underruns,
    pub loaded: bool,
    pub protected: bool,
    pub mode: Mode,
    pub late: u8,
    pub exception: bool,
    pub latched: Latched,
}

impl Latched {
    pub fn none() -> Latched
        ensures { result ≡ no_bits }
    {
        Latched::default()
    }

    pub fn with(self, b: Bit) -> Latched
        ensures { result ≡ with_bit b self }
    {
        match b {
            Bit::Cni => Latched { cni: true, ..self },
            Bit::Eom => Latched { eom: true, ..self },
            Bit::Ude => Latched { ude: true, ..self },
            Bit::Bnl => Latched { bnl: true, ..self },
            Bit::Fil => Latched { fil: true, ..self },
            Bit::Ill => Latched { ill: true, ..self },
            Bit::Ndt => Latched { ndt: true, ..self },
            Bit::Por => Latched { por: true, ..self },
        }
    }
}

// One more, up to the highest count and no further.
#[tactic(auto, using(crate::proofs::Counters::counted_stops))]
pub fn one_more(n: u16) -> u16
    ensures { result ≡ counted n }
{
    n.saturating_add(1)
}

impl Drive {
    // A fresh drive: no cartridge, POR latched, EXCEPTION up.
    pub fn fresh() -> Drive
        ensures { result ≡ fresh_drive }
    {
        Drive {
            loaded: false,
            protected: false,
            head: 0,
            mode: Mode::Idle,
            late: 0,
            exception: true,
            latched: Latched::none().with(Bit::Por),
            errors: Errors(0),
            underruns: Underruns(0),
        }
    }

    // Another mode, and with it no late block. The one place that changes the mode.
    pub fn in_mode(self, mode: Mode) -> Drive
        ensures { result ≡ in_mode mode self }
    {
        Drive { mode, ..self }.allow(0)
    }

    // So many late blocks still allowed.
    pub fn allow(self, late: u8) -> Drive
        ensures { result ≡ allowing late self }
    {
        Drive { late, ..self }
    }

    // A block recorded: one late block less.
    pub fn one_less(self) -> Drive
        ensures { result ≡ one_less self }
    {
        self.allow(self.late.saturating_sub(1))
    }

    // RESET: as fresh, but for the cartridge and its plug.
    pub fn reset(self) -> Drive
        ensures { result ≡ was_reset self }
    {
        Drive {
            loaded: self.loaded,
            protected: self.protected,
            ..Drive::fresh()
        }
    }

    pub fn rewind(self) -> Drive
        ensures { result ≡ rewound self }
    {
        Drive { head: 0, ..self }
    }

    // SELECT changes the selected drive's number only.
    pub fn select(self) -> Drive
        ensures { result ≡ chosen self }
    {
        self
    }

    // EXCEPTION alone.
    pub fn raise(self) -> Drive
        ensures { result ≡ raised self }
    {
        Drive {
            exception: true,
            ..self
        }
    }

    // A bit latched, with EXCEPTION up.
    pub fn latch(self, b: Bit) -> Drive
        ensures { result ≡ latching b self }
    {
        Drive {
            latched: self.latched.with(b),
            ..self
        }
        .raise()
    }

    // A bit latched by a rule that makes the mode Idle.
    pub fn stop(self, b: Bit) -> Drive
        ensures { result ≡ stopping b self }
    {
        self.in_mode(Mode::Idle).latch(b)
    }

    // Record made: the head past it. Apart from `pass_to`, since the book has two rules here.
    pub fn made(self, next: usize) -> Drive
        ensures { result ≡ made next self }
    {
        Drive { head: next, ..self }
    }

    // Records passed: the head where passing ended.
    pub fn pass_to(self, at: usize) -> Drive
        ensures { result ≡ passed_to at self }
    {
        Drive { head: at, ..self }
    }

    // READ STATUS has made its octets: latched bits, both counters and EXCEPTION cleared.
    pub fn clear_status(self) -> Drive
        ensures { result ≡ cleared self }
    {
        Drive {
            exception: false,
            latched: Latched::none(),
            errors: Errors(0),
            underruns: Underruns(0),
            ..self
        }
    }

    // Cartridge in, with its plug as given.
    pub fn load(self, protected: bool) -> Drive
        ensures { result ≡ loaded_with protected self }
    {
        Drive {
            loaded: true,
            protected,
            ..self
        }
        .rewind()
    }

    // Cartridge out: CNI latched, EXCEPTION up.
    pub fn unload(self) -> Drive
        ensures { result ≡ pulled self }
    {
        Drive {
            loaded: false,
            protected: false,
            ..self.stop(Bit::Cni)
        }
        .rewind()
    }

    // Writing without EXCEPTION: the drive takes data. Apart from `reads`: the book has a word for each.
    pub fn writes(self) -> bool
        ensures { result ≡ writes self }
    {
        self.mode.is_writing() & !self.exception
    }

    // Reading without EXCEPTION: the drive gives data.
    pub fn reads(self) -> bool
        ensures { result ≡ reads self }
    {
        self.mode.is_reading() & !self.exception
    }
}
