// A page's entries as a list: what each change of entries leaves.
ghost use Rattle.std.specs.Prelude.{◌≡◌, [], ◌∷◌, ◌++◌, ◌-◌, ◌≤◌, take, drop};
ghost use Rattle.def_layout.specs.Sizes.{room};
ghost use Rattle.def_layout.specs.Entries.{entry, top, place, insert_sorted, remove_key};
ghost use Rattle.def_model.specs.Change.{link_in, unlink_in};
ghost use Rattle.law_bytes.specs.EntryBytes.{used};
ghost use Rattle.record_apply.specs.Lists.{listed};

use codec_entries::{append, find, insert_at, remove_at, upper_part};
use def_layout::{Entry, ROOM};

// Entries in use, the first `count` of fourteen. An array with a count, since the project takes no memory from a heap.
#[derive(Clone, Copy, Debug, PartialEq, Eq, Default)]
pub struct EntryList {
    pub count: usize,
    pub entries: [Entry; ROOM],
}

// Each answers the list that a change leaves. Of fifteen entries the first fourteen stay.
impl EntryList {
    // Where a key belongs.
    fn place(self, k: u32) -> usize
        requires { self.count ≤ room }
        ensures { (result ≡ place k (listed self)) × (result ≤ self.count) }
    {
        find(self.entries, self.count as u8, k) as usize
    }

    // With (k, v) put in at its key's place.
    pub fn insert_key(self, k: u32, v: u32) -> EntryList
        requires { self.count ≤ room }
        ensures { (listed result ≡ take 14 (insert_sorted k v (listed self))) × (result.count ≤ room) }
    {
        let i = self.place(k);
        EntryList {
            count: ROOM.min(self.count + 1),
            entries: insert_at(self.entries, self.count, i, Entry { key: k, val: v }),
        }
    }

    // With the entry of key k taken out, if there is one.
    pub fn remove_key(self, k: u32) -> EntryList
        requires { self.count ≤ room }
        ensures { (listed result ≡ take 14 (remove_key k (listed self))) × (result.count ≤ room) }
    {
        let i = self.place(k);
        if i >= self.count || self.entries[i].key != k {
            return self;
        }
        EntryList {
            count: self.count - 1,
            entries: remove_at(self.entries, self.count, i),
        }
    }

    // Link: the entry (w, b) becomes (u, b), (w, c).
    pub fn link_in(self, b: u32, u: u32, c: u32, w: u32) -> EntryList
        requires { self.count ≤ room }
        ensures { (listed result ≡ take 14 (link_in b u c w (listed self))) × (result.count ≤ room) }
    {
        let i = self.place(w);
        if i >= self.count {
            return self;
        }
        let mut fs = self.entries;
        fs[i] = Entry { key: w, val: c };
        EntryList {
            count: ROOM.min(self.count + 1),
            entries: insert_at(fs, self.count, i, Entry { key: u, val: b }),
        }
    }

    // Unlink: the entries (u, b) and the one after it become (w, b).
    pub fn unlink_in(self, b: u32, u: u32, w: u32) -> EntryList
        requires { self.count ≤ room }
        ensures { (listed result ≡ take 14 (unlink_in b u w (listed self))) × (result.count ≤ room) }
    {
        let i = self.place(u);
        if i + 1 >= self.count {
            return self;
        }
        let mut fs = self.entries;
        fs[i + 1] = Entry { key: w, val: b };
        EntryList {
            count: self.count - 1,
            entries: remove_at(fs, self.count, i),
        }
    }

    // The other list's entries behind these.
    pub fn join(self, other: EntryList) -> EntryList
        requires { (self.count ≤ room) × (other.count ≤ room) }
        ensures { (listed result ≡ take 14 (listed self ++ listed other)) × (result.count ≤ room) }
    {
        EntryList {
            count: ROOM.min(self.count + other.count),
            entries: append(self.entries, self.count, other.entries, other.count),
        }
    }

    // All but the last m.
    pub fn without_last(self, m: usize) -> EntryList
        requires { self.count ≤ room }
        ensures { (listed result ≡ take (self.count - m) (listed self)) × (result.count ≤ room) }
    {
        EntryList {
            count: self.count.saturating_sub(m),
            ..self
        }
    }
}

// All but the first m of n entries. It takes the pair that the trees' splits and joins have at hand: a method would first put it into a list.
pub fn without_first(es: [Entry; ROOM], n: usize, m: usize) -> EntryList
    requires { n ≤ room }
    ensures { (listed result ≡ drop m (used n es)) × (result.count ≤ room) }
{
    if m >= n {
        return EntryList::default();
    }
    EntryList {
        count: n - m,
        entries: upper_part(es, n, m),
    }
}

// A raised root's two entries.
pub fn two_children(k: u32, c: u32, b: u32) -> EntryList
    ensures { (listed result ≡ entry k c ∷ entry top b ∷ []) × (result.count ≤ room) }
{
    let mut entries = [Entry::default(); ROOM];
    entries[0] = Entry { key: k, val: c };
    entries[1] = Entry {
        key: u32::MAX,
        val: b,
    };
    EntryList { count: 2, entries }
}
