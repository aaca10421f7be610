// Why an input is refused, and how a refusal is told.
ghost use Rattle.std.specs.Prelude.{◌≡◌, Some};
ghost use Rattle.plant.specs.Refusals.{number_of, law_number, law_told, layer_of, layer_word, refused, refusal_words};

use std::fmt;

// A law of the caps that a table or a list of grades can break.
#[derive(Clone, Copy, Debug, PartialEq, Eq)]
pub enum Law {
    // The empty set has cap 0.
    Empty = 1,
    // Adding a lane never lowers the cap.
    Grows = 2,
    // Two sets have no less than what they make together and what they share.
    Bends = 3,
}

impl Law {
    // The number by which the law is named.
    pub fn number(self) -> u8
        ensures { result ≡ law_number self }
    {
        self as u8
    }
}

// Each reason, in the order of its number.
#[derive(Clone, Copy, Debug, PartialEq, Eq)]
pub enum Reason {
    // 1 to 3 bytes are left, or a record's length is below 4 or goes beyond the end.
    Framing,
    // A kind of record that is not listed.
    Kind,
    // A record in the wrong place, or a file without a head.
    Order,
    // A record of a wrong size.
    Size,
    // A number out of its range.
    Range,
    // A lane with equal ends, into the stock or out of the despatch.
    Ends,
    // One lane too many, on the floor or on a side, or a file that is too long.
    TooMany,
    // A second limit for a side.
    SecondLimit,
    // Caps that break a law.
    Law(Law),
    // A ceiling above the top of all caps.
    Ceiling,
    // A side or a position that is not on the floor.
    OffFloor,
}

impl Reason {
    // The number under which the reason is told.
    pub fn number(self) -> u8
        ensures { result ≡ number_of self }
    {
        match self {
            Reason::Framing => 1,
            Reason::Kind => 2,
            Reason::Order => 3,
            Reason::Size => 4,
            Reason::Range => 5,
            Reason::Ends => 6,
            Reason::TooMany => 7,
            Reason::SecondLimit => 8,
            Reason::Law(_) => 9,
            Reason::Ceiling => 10,
            Reason::OffFloor => 11,
        }
    }

    // The number of the law that is broken, and 0 where none is.
    pub fn law_number(self) -> u8
        ensures { result ≡ law_told self }
    {
        match self {
            Reason::Law(law) => law.number(),
            _ => 0,
        }
    }

    // The layer at which the reason is found in a plant file, or in what a pile is set to.
    pub fn layer(self) -> Layer
        ensures { result ≡ layer_of self }
    {
        match self {
            Reason::Framing | Reason::Kind => Layer::Framing,
            Reason::Order | Reason::Size | Reason::Range => Layer::Record,
            Reason::Ends | Reason::TooMany | Reason::SecondLimit => Layer::Floor,
            Reason::Law(_) => Layer::Limit,
            Reason::Ceiling | Reason::OffFloor => Layer::Pile,
        }
    }
}

// Where a refusal was found.
#[derive(Clone, Copy, Debug, PartialEq, Eq)]
pub enum Layer {
    Framing,
    Record,
    Floor,
    Limit,
    // A closing or a ceiling over a plant.
    Pile,
    // A line plant, made from numbers and not read from a file.
    Line,
}

impl fmt::Display for Layer {
    ghost output = { λ layer. Some (layer_word layer) };

    fn fmt<W: fmt::Write>(&self, f: &mut fmt::Formatter<W>) -> fmt::Result {
        f.write_str(match self {
            Layer::Framing => "framing",
            Layer::Record => "record",
            Layer::Floor => "floor",
            Layer::Limit => "limit",
            Layer::Pile => "pile",
            Layer::Line => "line",
        })
    }
}

// A refusal as it is told. The place is the first byte of the record at fault, and 0 where there is none.
#[derive(Clone, Copy, Debug, PartialEq, Eq)]
pub struct Refusal {
    pub reason: Reason,
    pub layer: Layer,
    pub place: usize,
}

impl Refusal {
    // The refusal for a reason at a place, in the layer where the reason is found.
    pub fn new(reason: Reason, place: usize) -> Refusal
        ensures { result ≡ refused reason place }
    {
        Refusal {
            reason,
            layer: reason.layer(),
            place,
        }
    }
}

// The number of the reason, the layer, the place and the law.
impl fmt::Display for Refusal {
    ghost output = { λ refusal. Some (refusal_words refusal) };

    fn fmt<W: fmt::Write>(&self, f: &mut fmt::Formatter<W>) -> fmt::Result {
        write!(
            f,
            "{} {} at {} law {}",
            self.reason.number(),
            self.layer,
            self.place,
            self.reason.law_number()
        )
    }
}
