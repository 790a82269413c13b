// What memory has besides the tables of the newest tree: the head, the superblock's words, and three maps of data blocks.
ghost use Rattle.std.specs.Prelude.{◌≡◌, length};
ghost use Rattle.memory.specs.Lent.{SameStatus};
ghost use Rattle.memory.specs.Head.{head_from, head_with, from_words, to_words, OnlyHead};

use rows::used::Used;

// The head, 16 words; the block that the next sync puts, 512 words; and a bit for each data block: those that are held, those that were
// never written since they were taken, and those that the newest tree has.
#[derive(Drop)]
pub struct Status<'a> {
    pub head: &'a mut [u64],
    pub superblock: &'a mut [u64],
    pub held: &'a mut [u64],
    pub fresh: &'a mut [u64],
    pub own: &'a mut [u64],
}

// What the head says: how much of the tables is in use, how many older trees there are, and whether the journal is over.
#[derive(Clone, Copy, Debug, PartialEq, Eq)]
pub struct Head {
    pub used: Used,
    pub older: u64,
    pub over: bool,
}

impl From<[u64; 6]> for Head {
    // What six words of the head say.
    ghost from_gives = { λ words head. head ≡ from_words words };

    fn from([nodes, entries, cells, next, older, over]: [u64; 6]) -> Head {
        Head {
            used: Used {
                next,
                nodes: nodes as usize,
                entries: entries as usize,
                cells: cells as usize,
            },
            older,
            over: over == 1,
        }
    }
}

impl From<Head> for [u64; 6] {
    // The words that say it.
    ghost from_gives = { λ head words. words ≡ to_words head };

    fn from(head: Head) -> [u64; 6] {
        [
            head.used.nodes as u64,
            head.used.entries as u64,
            head.used.cells as u64,
            head.used.next,
            head.older,
            u64::from(head.over),
        ]
    }
}

impl Status<'_> {
    // What the head says.
    pub fn read_head(&self) -> Head
        requires { length self.now.head.now ≡ 16 }
        ensures { result ≡ head_from self.now.head.now }
    {
        Head::from(*self.head[4..].first_chunk::<6>().unwrap())
    }

    // Writes it into the head.
    pub fn write_head(&mut self, head: Head)
        requires { length self.old.head.now ≡ 16 }
        ensures same { SameStatus self.old self.new }
        ensures only { OnlyHead self.old self.new }
        ensures head { self.new.head.now ≡ head_with head self.old.head.now }
    {
        self.head[4..10].copy_from_slice(&<[u64; 6]>::from(head));
    }
}
