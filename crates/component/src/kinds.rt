// The eight kinds of components, their ports, and the two maps of a row.

ghost use Rattle.std.specs.Prelude.{◌≡◌};
ghost use Rattle.component.specs.Kind.{kind_of, port_of};

/// The kinds of components.
#[derive(Clone, Copy, Debug, PartialEq, Eq)]
pub enum Kind {
    Source,
    Sink,
    Queue,
    Function,
    Fork,
    Join,
    Switch,
    Merge,
}

/// The kind that a byte says. A row whose kind is above 7 is refused; here it says a merge.
// `From` and no `TryFrom`: a kind is read of rows that passed `row_ok`, and reading it cannot fail.
impl From<u8> for Kind {
    ghost from_gives = { λ number kind. kind ≡ kind_of number };

    #[tactic(auto, unfolding(crate::specs::Kind::kind_of))]
    fn from(number: u8) -> Kind {
        match number {
            0 => Kind::Source,
            1 => Kind::Sink,
            2 => Kind::Queue,
            3 => Kind::Function,
            4 => Kind::Fork,
            5 => Kind::Join,
            6 => Kind::Switch,
            _ => Kind::Merge,
        }
    }
}

/// The ports of a component.
#[derive(Clone, Copy, Debug, PartialEq, Eq)]
pub enum Port {
    A,
    B,
    C,
}

/// Port 0 is A, port 1 is B, any other C. It cannot fail, as the kind cannot.
impl From<usize> for Port {
    ghost from_gives = { λ number port. port ≡ port_of number };

    #[tactic(auto, unfolding(crate::specs::Kind::port_of))]
    fn from(number: usize) -> Port {
        match number {
            0 => Port::A,
            1 => Port::B,
            _ => Port::C,
        }
    }
}

/// The two maps of a row: functions and joins use the first, forks use the first for B and the second for C.
#[derive(Clone, Copy, Debug, PartialEq, Eq)]
pub enum Map {
    First,
    Second,
}
