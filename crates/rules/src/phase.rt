// The phase: what is under way at the selected drive, and how far it has come.
ghost use Rattle.std.specs.Prelude.{◌≡◌};
ghost use Rattle.rules.specs.Phase.{at_rest, is_status, rest_or_status, given_before, taken_before, outstanding, which_phase, how_far};

// Rest; n bytes of a block given by the host; n bytes of a block handed out; k octets outstanding.
#[derive(Clone, Copy)]
pub enum Phase {
    Rest,
    Taking(usize),
    Giving(usize),
    Status(usize),
}

impl Phase {
    pub fn at_rest(self) -> bool
        ensures { result ≡ at_rest self }
    {
        matches!(self, Phase::Rest)
    }

    pub fn is_status(self) -> bool
        ensures { result ≡ is_status self }
    {
        matches!(self, Phase::Status(_))
    }

    pub fn rest_or_status(self) -> bool
        ensures { result ≡ rest_or_status self }
    {
        self.at_rest() | self.is_status()
    }

    // Bytes of a block given before: 0 and no `Option` outside of one, since a block that has not begun goes on at place 0.
    // Three methods, here and below, since each reads another variant.
    pub fn given_before(self) -> usize
        ensures { result ≡ given_before self }
    {
        if let Phase::Taking(n) = self { n } else { 0 }
    }

    // Bytes of a block taken before: 0 outside of one, for the same reason.
    pub fn taken_before(self) -> usize
        ensures { result ≡ taken_before self }
    {
        if let Phase::Giving(n) = self { n } else { 0 }
    }

    // Octets outstanding: 0 where there are none. An `Option` would have two words for that, since a record may hold `Status(0)`.
    pub fn outstanding(self) -> usize
        ensures { result ≡ outstanding self }
    {
        if let Phase::Status(k) = self { k } else { 0 }
    }

    // The four in their order: the byte that a record has for each, which C reads.
    pub fn which(self) -> u8
        ensures { result ≡ which_phase self }
    {
        match self {
            Phase::Rest => 0,
            Phase::Taking(_) => 1,
            Phase::Giving(_) => 2,
            Phase::Status(_) => 3,
        }
    }

    // The number that each has, of bytes so far or of octets outstanding: C's record has one in every phase, 0 at Rest.
    pub fn how_far(self) -> usize
        ensures { result ≡ how_far self }
    {
        match self {
            Phase::Taking(n) | Phase::Giving(n) | Phase::Status(n) => n,
            Phase::Rest => 0,
        }
    }
}
