// The node test of a step as what is wanted of a row, which a scan compares.
ghost use Rattle.std.specs.Prelude.{◌≡◌, ◌<◌, length};
ghost use Rattle.scan.specs.Want.{wanted_kind, want_of, accepts};

use tree::Ask;

// A kind, or any, and a name, or any.
#[derive(Clone, Copy)]
pub struct Want {
    pub kind: Option<usize>,
    pub name: Option<usize>,
}

// What is wanted, and the columns that say what a row has.
#[derive(Clone, Copy)]
pub struct NodeTest<'a> {
    pub want: Want,
    pub kind: &'a [usize],
    pub name: &'a [usize],
}

impl NodeTest<'_> {
    // Whether row w is as wanted.
    #[tactic(auto, unfolding(crate::specs::Want::fits))]
    pub fn fits(&self, w: usize) -> bool
        requires { (w < length self.now.kind.now) × (w < length self.now.name.now) }
        ensures { result ≡ accepts self.now w }
    {
        let NodeTest { want, kind, name } = *self;
        want.kind.is_none_or(|wanted| kind[w] == wanted)
            && want.name.is_none_or(|wanted| name[w] == wanted)
    }
}

// The kind that a test code asks for, if it asks for one.
#[tactic(auto, unfolding(crate::specs::Want::wanted_kind))]
fn wanted_kind(test: usize) -> Option<usize>
    ensures { result ≡ wanted_kind test }
{
    match test {
        0 => None,
        1 | 2 => Some(1),
        3 => Some(2),
        4 => Some(3),
        5 | 6 => Some(4),
        _ => Some(0),
    }
}

// What the test of a step wants.
pub fn want_of(ask: Ask) -> Want
    ensures { result ≡ want_of ask }
{
    Want {
        kind: wanted_kind(ask.test),
        name: (ask.name != 0).then_some(ask.name),
    }
}
