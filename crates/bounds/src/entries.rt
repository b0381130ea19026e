// The entries of all interval rows, listed by the class that they lead to: a year then passes each of them once, along the order of the payoffs.
// `as` stands between `usize` and another width, for which there is no `From`, and where a number is proved to fit a narrower one: what `TryFrom`
// answers could only be unwrapped.
ghost use Rattle.std.specs.Prelude.{◌≡◌, ◌+◌, length};
ghost use Rattle.setchain.specs.Sums.{sum_to};
ghost use Rattle.setchain.specs.Rows.{ONE, lists_row};
ghost use Rattle.scheme.specs.Accepted.{Accepted};
ghost use Rattle.scheme.specs.Rows.{chain_of};
ghost use Rattle.bounds.specs.Joined.{joined};
ghost use Rattle.bounds.specs.Entries.{rules_row, AddRowPost, AddRowPre, EmptyLists, ListRowsPost, ListRowsPre, rules_chain};

use rows::{slack, sum_by_target};
use scheme::{Scheme, class_bands};

// The lists of all states: that of state j stands from place j × 32 on.
// Three arrays, not one array of entries: `joined` and what is proved of it speak of the parts as lists.
#[derive(Drop)]
pub struct Entries {
    // The state whose row has the entry.
    pub states: [u32; 1024],
    // Its lower end.
    pub lower_ends: [u32; 1024],
    // The capacity from there to its upper end.
    pub capacities: [u32; 1024],
    // How many entries each list has.
    pub counts: [u32; 32],
}

impl Entries {
    // Lists with no entry.
    pub const EMPTY: Entries = Entries {
        states: [0; 1024],
        lower_ends: [0; 1024],
        capacities: [0; 1024],
        counts: [0; 32],
    };
}

// Adds the entries of state i's row to the lists of the states that they lead to.
fn add_row(lower: &[u64], upper: &[u64], i: usize, entries: &mut Entries)
    requires { (length lower.now ≡ length upper.now) × AddRowPre (length upper.now) (lists_row lower.now upper.now) i (joined entries.old) }
    ensures { AddRowPost (length upper.now) (lists_row lower.now upper.now) i (joined entries.old) (joined entries.new) }
{
    for (j, (low, high)) in lower.iter().zip(upper).enumerate() {
        if 0 < *high {
            let count = entries.counts[j];
            let place = j * 32 + count as usize;
            entries.states[place] = i as u32;
            entries.lower_ends[place] = *low as u32;
            entries.capacities[place] = (*high - *low) as u32;
            entries.counts[j] = count + 1;
        }
    }
}

// Lists the entries of state i's row, of n states, and returns the slack that its lower ends leave.
// n is how many states there are, and no length of a slice lent.
fn list_row(
    rules: &[u8],
    lowers: &[u32],
    uppers: &[u32],
    n: usize,
    i: usize,
    entries: &mut Entries,
) -> u32
    requires { AddRowPre n (rules_row rules.now lowers.now uppers.now) i (joined entries.old) }
    ensures entries { AddRowPost n (rules_row rules.now lowers.now uppers.now) i (joined entries.old) (joined entries.new) }
    ensures slack { sum_to n (rules_row rules.now lowers.now uppers.now).lower + result ≡ ONE }
{
    let mut lower = [0u64; 32];
    sum_by_target(rules, lowers, &mut lower[..n]);
    let mut upper = [0u64; 32];
    sum_by_target(rules, uppers, &mut upper[..n]);
    add_row(&lower[..n], &upper[..n], i, entries);
    slack(&lower[..n]) as u32
}

// Lists the entries of all rows of a scheme, and writes the slack that each row's lower ends leave.
fn list_rows(scheme: &Scheme, entries: &mut Entries, slack: &mut [u32; 32])
    requires { ListRowsPre scheme.now.classes scheme.now.columns scheme.now.rules scheme.now.lowers scheme.now.uppers (joined entries.old) slack.old }
    ensures { ListRowsPost (rules_chain scheme.now.classes scheme.now.columns scheme.now.rules scheme.now.lowers scheme.now.uppers) (joined entries.new) slack.new }
{
    let m = usize::from(scheme.columns);
    let n = usize::from(scheme.classes);
    for i in 0..n {
        let first = i * scheme::CELL_STRIDE;
        let rules = &scheme.rules[first..first + m];
        let lower = class_bands(&scheme.lowers, m, i);
        let upper = class_bands(&scheme.uppers, m, i);
        slack[i] = list_row(rules, lower, upper, n, i, entries);
    }
}

// A scheme with the entries of all its rows listed: what a run of the years reads.
// The tables are the caller's: owned here, `of` would move them, and a call would take 12 KB of stack more.
#[derive(Drop)]
pub struct Listed<'a> {
    pub scheme: Scheme,
    pub entries: &'a Entries,
    // What each row's lower ends leave of ONE.
    pub slack: &'a [u32; 32],
    ghost lists: { ListRowsPost (chain_of scheme) (joined entries.now) slack.now },
}

impl<'a> Listed<'a> {
    // Lists the entries of a scheme in tables of zeros.
    pub fn of(scheme: Scheme, entries: &'a mut Entries, slack: &'a mut [u32; 32]) -> Listed<'a>
        requires { (Accepted scheme) × EmptyLists (joined entries.old) slack.old }
        ensures { result.scheme ≡ scheme }
    {
        list_rows(&scheme, entries, slack);
        Listed {
            scheme,
            entries,
            slack,
        }
    }
}
