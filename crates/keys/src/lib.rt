// The row of a key, and the least row whose key is bad, by rows chained in buckets.
#![tactic(auto)]

ghost use Rattle.std.specs.Prelude.{◌≡◌, false, ℕ, ◌+◌, ◌<◌, ◌≤◌, length, eqb};
ghost use Rattle.tree.specs.Table.{at, most_rows};
ghost use Rattle.tree.specs.Sound.{row_of, key_ok};
ghost use Rattle.keys.specs.FirstKey.{first_key};
ghost use Rattle.keys.specs.Chain.{spread_of, buckets_of, bucket_of, Empty, Chained};

use basics::one_of;

// A row before which none has the key x, and from which on each of the first n rows has to be looked at: eight rows are
// passed over at a time.
fn past_eights(key: &[usize], n: usize, x: usize) -> usize
    requires { n ≤ length key.now }
    ensures { (result ≤ n) × ((j : ℕ) → j < result → eqb (at key.now j) x ≡ false) }
{
    let mut k = 0;
    // Not `chunks`: the place where the last eight ended is the answer, and would be counted anew.
    while 8 <= n - k {
        if one_of(key, k, k + 8, x) {
            return k;
        }
        k += 8;
    }
    k
}

// The least of the first n rows with the key x, or n.
pub fn row_of(key: &[usize], n: usize, x: usize) -> usize
    requires { n ≤ length key.now }
    ensures { result ≡ row_of key.now n x }
{
    let mut k = past_eights(key, n, x);
    // Not `for`: 4.2 nanoseconds in place of 3.2 at one row, 4.4 in place of 3.6 at two.
    while k < n {
        if key[k] == x {
            return k;
        }
        k += 1;
    }
    k
}

// A number below 2^32 for a key, from both its halves. No product is as much as 2^63.
fn spread(x: usize) -> usize
    ensures { result ≡ spread_of x }
{
    ((x % 0x1_0000_0000) * 0x61C8_8647 + (x / 0x1_0000_0000) * 0x1B87_3593) % 0x1_0000_0000
}

// The bucket of a key. It takes no division, so one loop serves any number of buckets.
fn bucket(x: usize, shift: usize) -> usize
    requires { shift ≤ 32 }
    ensures { (result ≡ bucket_of shift x) × (result < buckets_of shift) }
{
    spread(x) >> shift
}

// Rows chained by their keys. A link is one more than a row, or 0 for none: `heads` has for each bucket a link to its
// last row, `next` for each row a link to the row before it in its bucket.
#[derive(Drop)]
pub struct Chains<'a> {
    pub heads: &'a mut [u16],
    pub next: &'a mut [u16],
    pub shift: usize,
    pub ghost low: { shift ≤ 32 },
    pub ghost wide: { buckets_of shift ≤ length heads.now },
}

impl Chains<'_> {
    ghost use Rattle.keys.specs.SameChains.{Same};

    // The least of the first n rows with the key x, or n: a walk along the chain of x's bucket, which leads back.
    pub fn row_in(&self, key: &[usize], n: usize, x: usize) -> usize
        requires n_in_bounds { n ≤ length key.now }
        requires n_in_room { (n ≤ length self.now.next.now) × (n ≤ most_rows) }
        requires chained { Chained self.now.shift key.now self.now.heads.now self.now.next.now n }
        ensures { result ≡ row_of key.now n x }
    {
        let b = bucket(x, self.shift);
        let mut row = n;
        let mut r = self.heads[b] as usize;
        // Along the links: no index is counted.
        while 0 < r {
            let j = r - 1;
            if key[j] == x {
                row = j;
            }
            r = self.next[j] as usize;
        }
        row
    }

    // Whether the key of row i is good: neither 0 nor that of an earlier row.
    pub fn key_ok(&self, key: &[usize], i: usize) -> bool
        requires i_in_bounds { i < length key.now }
        requires i_in_room { (i ≤ length self.now.next.now) × (i ≤ most_rows) }
        requires chained { Chained self.now.shift key.now self.now.heads.now self.now.next.now i }
        ensures { result ≡ key_ok key.now i }
    {
        let x = key[i];
        let zero = x == 0;
        if zero {
            return false;
        }
        i <= self.row_in(key, i, x)
    }

    // Chains row i behind the last row of its key's bucket, and answers how many rows are chained then. Whoever counts
    // on with the answer adds 1 once for both.
    pub fn link(&mut self, key: &[usize], i: usize) -> usize
        requires i_in_bounds { i < length key.now }
        requires i_in_room { (i < length self.old.next.now) × (i < most_rows) }
        requires chained { Chained self.old.shift key.now self.old.heads.now self.old.next.now i }
        ensures value { result ≡ i + 1 }
        ensures room { length self.new.next.now ≡ length self.old.next.now }
        ensures same { Same self.old self.new }
        ensures chained_2 { Chained self.new.shift key.now self.new.heads.now self.new.next.now (i + 1) }
    {
        let b = bucket(key[i], self.shift);
        let chained = i + 1;
        self.next[i] = self.heads[b];
        self.heads[b] = chained as u16;
        chained
    }

    // Empties all buckets, whatever rows they hold, and changes nothing else.
    pub fn clear(&mut self)
        ensures room { self.new.next.now ≡ self.old.next.now }
        ensures same { Same self.old self.new }
        ensures zeros { (b : ℕ) → b < length self.new.heads.now → at self.new.heads.now b ≡ 0 }
        ensures empty { Empty self.new.shift self.new.heads.now }
    {
        self.heads.fill(0);
    }

    // The least of the first n rows whose key is not good, or n. No row is chained at first; the rows before the answer
    // are at the end.
    pub fn first_key(&mut self, key: &[usize], n: usize) -> usize
        requires n_in_bounds { n ≤ length key.now }
        requires n_in_room { (n ≤ length self.old.next.now) × (n ≤ most_rows) }
        requires empty { Empty self.old.shift self.old.heads.now }
        ensures value { result ≡ first_key key.now n }
        ensures room { length self.new.next.now ≡ length self.old.next.now }
        ensures same { Same self.old self.new }
        ensures chained_2 { Chained self.new.shift key.now self.new.heads.now self.new.next.now result }
    {
        let mut i = 0;
        // Not `for`: `link` counts, and a second count would be 7% of the pass.
        while i < n {
            if !self.key_ok(key, i) {
                return i;
            }
            i = self.link(key, i);
        }
        i
    }
}

// What f answers of chains of its own, in which no row is chained, with so many buckets and rows.
fn with_size<const HEADS: usize, const ROWS: usize, F: FnOnce(&mut Chains<'_>) -> usize>(
    n: usize,
    shift: usize,
    f: F,
) -> usize
    requires low { shift ≤ 32 }
    requires wide { buckets_of shift ≤ HEADS }
    requires few { (HEADS ≤ 16384) × (ROWS ≤ most_rows) }
    requires n_in_room { n ≤ ROWS }
    requires callable { (c : _) → n ≤ length c.now.next.now → Empty c.now.shift c.now.heads.now → F.pre f c }
    ensures { (c : _) × (after : _) × (n ≤ length c.now.next.now) × Empty c.now.shift c.now.heads.now
        × F.post f c result after }
{
    let mut heads = [0u16; HEADS];
    let mut next = [0u16; ROWS];
    f(&mut Chains {
        heads: &mut heads,
        next: &mut next,
        shift,
    })
}

// What f answers of chains of its own with room for n rows, in which none is chained. They are cleared at each call and
// so no longer than the rows ask for: there are six sizes, with four buckets for each row, which are 2^(32 - shift).
pub fn with_chains<F: FnOnce(&mut Chains<'_>) -> usize>(n: usize, f: F) -> usize
    requires n_bound { n ≤ most_rows }
    requires callable { (c : _) → n ≤ length c.now.next.now → Empty c.now.shift c.now.heads.now → F.pre f c }
    ensures { (c : _) × (after : _) × (n ≤ length c.now.next.now) × Empty c.now.shift c.now.heads.now
        × F.post f c result after }
{
    match n {
        0..=16 => with_size::<64, 16, F>(n, 26, f),
        17..=32 => with_size::<128, 32, F>(n, 25, f),
        33..=64 => with_size::<256, 64, F>(n, 24, f),
        65..=256 => with_size::<1024, 256, F>(n, 22, f),
        257..=1024 => with_size::<4096, 1024, F>(n, 20, f),
        _ => with_size::<16384, 4096, F>(n, 18, f),
    }
}

// The least of the first n rows whose key is not good, or n, by chains of its own. The time is that of the rows, on
// keys that spread over the buckets; on others it grows with the longest chain.
pub fn first_key(key: &[usize], n: usize) -> usize
    requires { (n ≤ 4096) × (n ≤ length key.now) }
    ensures { result ≡ first_key key.now n }
{
    with_chains(n, |chains| chains.first_key(key, n))
}
