// All rules of all rows in one pass, with the rows that are still open remembered by level and the rows passed chained
// by their keys. A table that fails here is searched for its least unsound row (lib.rt).
ghost use Rattle.std.specs.Prelude.{◌≡◌, ◌&&◌, ℕ, ◌<◌, ◌≤◌, length};
ghost use Rattle.tree.specs.Table.{most_rows, at, seen};
ghost use Rattle.tree.specs.Sound.{kind_ok, name_ok, first_bad};
ghost use Rattle.tree.specs.Rules.{InUse};
ghost use Rattle.keys.specs.Chain.{buckets_of, Empty, Chained};
ghost use Rattle.keys.specs.SameChains.{Same};
ghost use Rattle.rows.specs.OnePass.{fits_in};

use keys::Chains;
use tree::Columns;

// Whether a row of level own, with held rows below it, may stand at row i, where levels may be up to most: inside the
// row it lies under, and after the end of the row of its own level before it.
#[tactic(auto, unfolding(crate::specs::OnePass::fits_in))]
fn fits_in(ends: &[u32; 65], most: usize, i: usize, own: usize, held: usize) -> bool
    requires most_bound { most < 65 }
    requires by_index { (l : ℕ) → l < 65 → at ends.now l ≤ most_rows }
    requires by_index_2 { (l : ℕ) → l ≤ most → i ≤ at ends.now l }
    ensures { result ≡ fits_in ends.now most i own held }
{
    if most < own {
        return false;
    }
    if 63 < own {
        return false;
    }
    (held < ends[own] as usize - i) & (ends[own + 1] as usize <= i)
}

// Whether kind, name, level and size of a row fit each other. A name of 0 is asked for first: compilers expect what is
// compared with 0 to differ from it, and most rows are elements with a name.
#[tactic(auto, unfolding(tree::specs::Sound::kind_ok, tree::specs::Sound::name_ok, tree::specs::Sound::has_name))]
fn kind_fits(size: usize, own: usize, kind: usize, name: usize) -> bool
    ensures { result ≡ (kind_ok kind size own && name_ok kind name) }
{
    if name == 0 {
        return match kind {
            0 => own == 0,
            2..=3 => size == 0,
            _ => false,
        };
    }
    if kind != 1 {
        return (kind == 4) & (size == 0);
    }
    true
}

// How many rows pass: all of them only where every row is sound, and then they are chained; no row is at first. Where a
// row of level l has to end at the latest stands at l in ends: the end of the table, and behind it that of the last row
// of each level. It is compiled into both of its callers.
#[tactic(auto, using(crate::proofs::OnePassLaws::row_ends))]
#[inline(always)]
pub fn passed_in(columns: &Columns<'_>, chains: &mut Chains<'_>) -> usize
    requires in_use { InUse (seen columns.now) }
    requires in_room { columns.now.count ≤ length chains.old.next.now }
    requires empty { Empty chains.old.shift chains.old.heads.now }
    ensures count_value { result ≡ columns.now.count
        → first_bad (seen columns.now) ≡ columns.now.count }
    ensures room { length chains.new.next.now ≡ length chains.old.next.now }
    ensures same { Same chains.old chains.new }
    ensures chained_2 { result ≡ columns.now.count
        → Chained chains.new.shift columns.now.key.now chains.new.heads.now chains.new.next.now
        columns.now.count }
{
    let Columns {
        key,
        size,
        level,
        kind,
        name,
        count,
    } = *columns;
    let mut ends = [0u32; 65];
    ends[0] = count as u32;
    let mut most = 0;
    let mut i = 0;
    // Not `for`: `link` counts, and a second count would be 7% of the pass.
    while i < count {
        if !chains.key_ok(key, i) {
            return i;
        }
        let after = chains.link(key, i);
        let own = level[i];
        let held = size[i];
        if !fits_in(&ends, most, i, own, held) {
            return i;
        }
        if !kind_fits(held, own, kind[i], name[i]) {
            return i;
        }
        most = own + 1;
        ends[most] = (after + held) as u32;
        i = after;
    }
    i
}

// The same by chains that come by value and are handed back, so that the loop holds them in registers: behind a
// reference they are read again for each row, and 64 rows and more take a tenth longer, a third where the code lies
// badly.
fn passed_by<'a>(columns: &Columns<'_>, chains: Chains<'a>) -> (usize, Chains<'a>)
    requires in_use { InUse (seen columns.now) }
    requires in_room { columns.now.count ≤ length chains.next.now }
    requires empty { Empty chains.shift chains.heads.now }
    ensures { result.0 ≡ columns.now.count → first_bad (seen columns.now) ≡ columns.now.count }
{
    let mut chains = chains;
    let passed = passed_in(columns, &mut chains);
    (passed, chains)
}

// The same by chains of its own, of so many buckets and rows.
fn passed_with<const HEADS: usize, const ROWS: usize>(columns: &Columns<'_>, shift: usize) -> usize
    requires in_use { InUse (seen columns.now) }
    requires low { shift ≤ 32 }
    requires wide { buckets_of shift ≤ HEADS }
    requires few { (HEADS ≤ 16384) × (ROWS ≤ most_rows) }
    requires in_room { columns.now.count ≤ ROWS }
    ensures { result ≡ columns.now.count → first_bad (seen columns.now) ≡ columns.now.count }
{
    let mut heads = [0u16; HEADS];
    let mut next = [0u16; ROWS];
    let chains = Chains {
        heads: &mut heads,
        next: &mut next,
        shift,
    };
    passed_by(columns, chains).0
}

// The same at the sizes of `keys::with_chains`. It lends the columns to no closure: a check of few rows takes a tenth
// longer so.
pub fn passed(columns: &Columns<'_>) -> usize
    requires { InUse (seen columns.now) }
    ensures { result ≡ columns.now.count → first_bad (seen columns.now) ≡ columns.now.count }
{
    match columns.count {
        0..=16 => passed_with::<64, 16>(columns, 26),
        17..=32 => passed_with::<128, 32>(columns, 25),
        33..=64 => passed_with::<256, 64>(columns, 24),
        65..=256 => passed_with::<1024, 256>(columns, 22),
        257..=1024 => passed_with::<4096, 1024>(columns, 20),
        _ => passed_with::<16384, 4096>(columns, 18),
    }
}
