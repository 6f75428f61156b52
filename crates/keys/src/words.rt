// Where a word stands among the first words of a table's entries.
//
// A guess from the word itself, as if words were drawn evenly: nearly always the place is among the 63 entries around it,
// which two probes say, and then it is found in six steps without a branch. Else by steps over what the probes leave.
//
// That a size is not 0 is asked of the size alone: a type for it would be unwrapped at once.
ghost use Rattle.std.specs.Prelude.{◌≡◌, ◌+◌, ◌-◌, ◌*◌, ◌≤◌, ◌<◌, ltb, length};
ghost use Rattle.keys.specs.Within.{word_at, Within};

use crate::Entries;

// A word looked for among the first words of these entries.
#[derive(Clone, Copy)]
struct Search<'a> {
    table: Entries<'a>,
    word: u64,
    ghost wide: { 8 ≤ table.width },
}

impl Search<'_> {
    // Whether entry i's word is less.
    fn less(self, i: usize) -> bool
        requires { i < self.table.count }
        ensures { result ≡ ltb (word_at self.entry.table.width self.entry.table.bytes.now i) self.entry.word }
    {
        fields::read_u64(self.table.bytes, i * self.table.width) < self.word
    }

    // One step: the place is among `size` entries from `from` on and the `room - size - 1` behind them.
    fn past(self, from: usize, room: usize, size: usize) -> usize
        requires size_bound { (0 < size) × (size + size ≤ room) }
        requires within { Within (word_at self.table.width self.table.bytes.now) self.table.count self.word from (from + (room - 1)) }
        ensures { Within (word_at self.entry.table.width self.entry.table.bytes.now) self.entry.table.count self.entry.word result (result + (room - size - 1)) }
    {
        if self.less(from + size - 1) {
            return from + size;
        }
        from
    }

    // The place among 63 entries.
    fn among_63(self, from: usize) -> usize
        requires { Within (word_at self.table.width self.table.bytes.now) self.table.count self.word from (from + 63) }
        ensures { Within (word_at self.entry.table.width self.entry.table.bytes.now) self.entry.table.count self.entry.word result result }
    {
        let a = self.past(from, 64, 32);
        let b = self.past(a, 32, 16);
        let c = self.past(b, 16, 8);
        let d = self.past(c, 8, 4);
        let e = self.past(d, 4, 2);
        self.past(e, 2, 1)
    }

    // The same with three probes at once, which are counted: there is nothing to branch over.
    fn past_quarters(self, from: usize, room: usize, size: usize) -> usize
        requires size_bound { (0 < size) × (4 * size ≤ room) }
        requires within { Within (word_at self.table.width self.table.bytes.now) self.table.count self.word from (from + (room - 1)) }
        ensures { Within (word_at self.entry.table.width self.entry.table.bytes.now) self.entry.table.count self.entry.word result (result + (room - 3 * size - 1)) }
    {
        let first = usize::from(self.less(from + size - 1));
        let second = usize::from(self.less(from + 2 * size - 1));
        let third = usize::from(self.less(from + 3 * size - 1));
        from + (first + second + third) * size
    }

    // The place among any number of entries. How often it turns depends on their number alone.
    fn among(self, lo: usize, hi: usize) -> usize
        requires { Within (word_at self.table.width self.table.bytes.now) self.table.count self.word lo hi }
        ensures { Within (word_at self.entry.table.width self.entry.table.bytes.now) self.entry.table.count self.entry.word result result }
    {
        let mut from = lo;
        let mut room = hi - lo + 1;
        // What is left shrinks by quarters, then by ones: no index is counted.
        while 4 <= room {
            let size = room / 4;
            from = self.past_quarters(from, room, size);
            room -= 3 * size;
        }
        while 2 <= room {
            from = self.past(from, room, 1);
            room -= 1;
        }
        from
    }
}

// Where 65 entries start around the place that the word would have if words were drawn evenly.
fn guess(count: usize, word: u64) -> usize
    requires { (65 ≤ count) × (count ≤ 65536) }
    ensures { result + 65 ≤ count }
{
    let high = (word / 4294967296) as usize;
    let middle = high * count / 4294967296;
    if middle < 32 {
        return 0;
    }
    if count - 33 < middle {
        return count - 65;
    }
    middle - 32
}

// How many entries have a lesser word.
pub fn place(table: Entries, word: u64) -> usize
    requires le_width { 8 ≤ table.width }
    requires within { Within (word_at table.width table.bytes.now) table.count word 0 table.count }
    ensures { Within (word_at table.entry.width table.entry.bytes.now) table.entry.count word result result }
{
    let search = Search { table, word };
    if table.count < 65 {
        return search.among(0, table.count);
    }
    if 65536 < table.count {
        return search.among(0, table.count);
    }
    let start = guess(table.count, word);
    if !search.less(start) {
        return search.among(0, start);
    }
    if search.less(start + 64) {
        return search.among(start + 65, table.count);
    }
    search.among_63(start + 1)
}
