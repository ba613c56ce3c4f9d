// The rows of a state that wait.
ghost use Rattle.std.specs.Prelude.{◌≡◌, ◌≤◌};

// The owners of the rows that wait, one for each such row. In fixed memory: so a count beside the array.
#[derive(Clone, Copy, Debug)]
pub(crate) struct Waiters {
    pub(crate) owners: [u16; 32],
    pub(crate) count: usize,
    ghost fits: { count ≤ 32 },
}

impl Waiters {
    ghost use Rattle.soundness.specs.Waiting.{count_of, owners_in};

    // How many rows of that process wait.
    pub(crate) fn count_of(&self, pid: u16) -> usize
        ensures { result ≡ count_of pid (owners_in self.now) }
    {
        self.owners[..self.count]
            .iter()
            .filter(|x| **x == pid)
            .count()
    }
}
