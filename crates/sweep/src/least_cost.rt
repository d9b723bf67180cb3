// The least of what words cost, found word by word.

// The least cost of some words, how many of them have it, and the number of the last of these.
#[derive(Clone, Copy)]
pub(crate) struct Least {
    pub(crate) cost: u32,
    pub(crate) ways: u32,
    pub(crate) last: usize,
}

impl Least {
    // The least cost of the words so far, if there were any, and one word more.
    pub(crate) fn of_one_more(so_far: Option<Least>, number: usize, cost: u32) -> Least {
        match so_far {
            Some(least) if least.cost < cost => least,
            Some(least) if least.cost == cost => Least {
                cost,
                ways: least.ways.saturating_add(1),
                last: number,
            },
            _ => Least {
                cost,
                ways: 1,
                last: number,
            },
        }
    }

    // Whether one word alone has it.
    pub(crate) fn is_sole(&self) -> bool {
        self.ways == 1
    }
}
