// What the calls answer. The definitions of Answers give each refusal the number that it has in the requirement.
ghost use Rattle.std.specs.Prelude.{◌≡◌};
ghost use Rattle.store.specs.Answers.{number_of, refusal_number};

// Why a call is refused, by the number of the refusal from 1 to 10, or 12.
#[derive(Clone, Copy, PartialEq, Eq)]
pub enum Refusal {
    Size,
    Off,
    Full,
    Absent,
    Nodes,
    Last,
    Blank,
    Layout,
    Shape,
    Cut,
    Thin,
}

impl From<Refusal> for u32 {
    ghost from_gives = { λ refusal number. number ≡ number_of refusal };

    fn from(refusal: Refusal) -> u32 {
        match refusal {
            Refusal::Size => 1,
            Refusal::Off => 2,
            Refusal::Full => 3,
            Refusal::Absent => 4,
            Refusal::Nodes => 5,
            Refusal::Last => 6,
            Refusal::Blank => 7,
            Refusal::Layout => 8,
            Refusal::Shape => 9,
            Refusal::Cut => 10,
            Refusal::Thin => 12,
        }
    }
}

// What a look up that is not refused with 2 or 1 gives: the value, none where the key is absent (4), and the pages read.
#[derive(Clone, Copy)]
pub struct Look {
    pub value: Option<u32>,
    pub pages: u32,
}

// What a block report gives: how many pages of the block are free, the first free one and the erases of the block.
#[derive(Clone, Copy)]
pub struct Report {
    pub free: u32,
    pub first: u32,
    pub erases: u64,
}

// The number of the refusal of an answer, 0 where it is Ok, whatever it gives.
pub fn number<T: Copy>(answer: Result<T, Refusal>) -> u32
    ensures { result ≡ refusal_number answer }
{
    match answer {
        Ok(_) => 0,
        Err(refusal) => u32::from(refusal),
    }
}
