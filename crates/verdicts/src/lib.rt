#![tactic(auto)]

// Why a call on a card is refused, and where: document 01, "A card refusal also names its place".
ghost use Rattle.std.specs.Prelude.{◌≡◌};
ghost use Rattle.verdicts.specs.Rows.{rule_number};

// The whole card, a block, or a directory entry.
#[derive(Clone, Copy, Debug, PartialEq, Eq)]
pub enum Place {
    Whole,
    Block(usize),
    Entry(usize),
}

// The rules that a card or a call on it can break: the rows of document 01's table from 20 on, and 34 of document 02's order 1.
#[derive(Clone, Copy, Debug, PartialEq, Eq)]
pub enum Rule {
    CardLength,
    RootMagic,
    RootFields,
    SystemEntry,
    HiddenEntry,
    UserEntry,
    DirectoryEntry,
    Chain,
    SharedBlock,
    SameName,
    Game,
    NoFile,
    BlockIndex,
    Lengths,
    NoRoom,
}

// The number that the papers give the rule.
impl From<Rule> for u8 {
    ghost from_gives = { λ rule number. number ≡ rule_number rule };

    fn from(rule: Rule) -> u8 {
        match rule {
            Rule::CardLength => 20,
            Rule::RootMagic => 21,
            Rule::RootFields => 22,
            Rule::SystemEntry => 23,
            Rule::HiddenEntry => 24,
            Rule::UserEntry => 25,
            Rule::DirectoryEntry => 26,
            Rule::Chain => 27,
            Rule::SharedBlock => 28,
            Rule::SameName => 29,
            Rule::Game => 30,
            Rule::NoFile => 31,
            Rule::BlockIndex => 32,
            Rule::Lengths => 33,
            Rule::NoRoom => 34,
        }
    }
}

impl Rule {
    // The refusal by this rule at a place.
    pub fn at(self, place: Place) -> CardError
        ensures { result ≡ record { rule = self; place = place } }
    {
        CardError { rule: self, place }
    }
}

// A refusal: the rule that is broken, and where.
#[derive(Clone, Copy, Debug, PartialEq, Eq)]
pub struct CardError {
    pub rule: Rule,
    pub place: Place,
}
