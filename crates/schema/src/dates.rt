// The dates of a document (02, L3): how many, the earliest and the latest.
ghost use Rattle.std.specs.Prelude.{◌≡◌, [], ◌∷◌};
ghost use Rattle.schema.specs.Walks.{Tallied, Counted, numbers_of};

// The count stops here, so that one more is defined whatever was counted. No document has more values.
const MOST: u32 = 65536;

// How many dates there are, the earliest and the latest; all three are 0 where there are none.
#[derive(Clone, Copy, Debug, PartialEq, Eq)]
pub struct Dates {
    count: u32,
    earliest: i64,
    latest: i64,
}

impl Dates {
    pub fn none() -> Self
        ensures { Tallied result [] }
    {
        Self {
            count: 0,
            earliest: 0,
            latest: 0,
        }
    }

    // One moment more.
    pub fn add(&mut self, moment: i64)
        ensures { Counted moment self.old self.new }
    {
        if self.count == 0 {
            *self = Self {
                count: 1,
                earliest: moment,
                latest: moment,
            };
            return;
        }
        self.earliest = self.earliest.min(moment);
        self.latest = moment.max(self.latest);
        if self.count < MOST {
            self.count += 1;
        }
    }

    // The three numbers, as they are lent out.
    pub fn numbers(self) -> [i64; 3]
        ensures { result ≡ numbers_of self }
    {
        [i64::from(self.count), self.earliest, self.latest]
    }
}
