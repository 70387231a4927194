// The kinds of the records of a file, for the code that frames records and the code that writes them.
#![tactic(auto)]

ghost use Rattle.std.specs.Prelude.{◌≡◌, ◌≤◌};
ghost use Rattle.file_records.specs.Records.{kind_number};

// What a record holds: the number of contexts, the ring of one context, the labels, or the chart. Its number is the record's kind in a file.
#[derive(Clone, Copy, PartialEq, Eq)]
pub enum Record {
    Contexts = 1,
    Ring = 2,
    Labels = 3,
    Chart = 4,
}

impl Record {
    // The number that stands for this kind in a file.
    pub fn number(self) -> u16
        ensures value { result ≡ kind_number self }
        ensures upper_bound { result ≤ 4 }
    {
        self as u16
    }
}
