// The least row of a piece whose key a table has, by the table's rows chained in buckets, as `keys` chains them.
#![tactic(auto)]

ghost use Rattle.std.specs.Prelude.{◌≡◌, ◌≤◌, length};
ghost use Rattle.tree.specs.Table.{most_rows};
ghost use Rattle.keys.specs.Chain.{Empty, Chained};
ghost use Rattle.clash.specs.FirstClash.{first_clash};

use keys::{Chains, row_of, with_chains};

// Chains the first n rows, without a test of their keys.
fn chain(key: &[usize], n: usize, chains: &mut Chains<'_>)
    requires n_in_bounds { n ≤ length key.now }
    requires n_in_room { (n ≤ length chains.old.next.now) × (n ≤ most_rows) }
    requires empty { Empty chains.old.shift chains.old.heads.now }
    ensures room { length chains.new.next.now ≡ length chains.old.next.now }
    ensures chained { Chained chains.new.shift key.now chains.new.heads.now chains.new.next.now n }
{
    for i in 0..n {
        chains.link(key, i);
    }
}

// The least of the first m rows of a piece whose key one of the first n rows has, or m: a search for each key.
fn clash_by_rows(key: &[usize], n: usize, piece: &[usize], m: usize) -> usize
    requires n_in_bounds { n ≤ length key.now }
    requires m_in_bounds { m ≤ length piece.now }
    ensures { result ≡ first_clash key.now n piece.now m }
{
    basics::least(m, |i| row_of(key, n, piece[i]) < n)
}

// The same by the chains of the first n rows. No row is chained at first.
fn clash_in(key: &[usize], n: usize, piece: &[usize], m: usize, chains: &mut Chains<'_>) -> usize
    requires n_in_bounds { n ≤ length key.now }
    requires m_in_bounds { m ≤ length piece.now }
    requires n_in_room { (n ≤ length chains.old.next.now) × (n ≤ most_rows) }
    requires empty { Empty chains.old.shift chains.old.heads.now }
    ensures { result ≡ first_clash key.now n piece.now m }
{
    chain(key, n, chains);
    basics::least(m, |i| chains.row_in(key, n, piece[i]) < n)
}

// The same by the way that is faster for the piece: with chains of its own, in time linear in both where keys spread
// over the buckets.
pub fn first_clash(key: &[usize], n: usize, piece: &[usize], m: usize) -> usize
    requires n_bound { (n ≤ 4096) × (n ≤ length key.now) }
    requires m_in_bounds { m ≤ length piece.now }
    ensures { result ≡ first_clash key.now n piece.now m }
{
    if m <= 4 {
        return clash_by_rows(key, n, piece, m);
    }
    with_chains(n, |chains| clash_in(key, n, piece, m, chains))
}
