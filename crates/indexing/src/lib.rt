// The index of an assertion: where each variable is mentioned, and in which instruction.

#![tactic(auto)]

ghost use Rattle.std.specs.Prelude.{◌≡◌, ◌<◌, ◌≤◌, ◌+◌, length, get_or};
ghost use Rattle.waiting.specs.Index.{Linked, Owners, Indexed};

use kinds::Kind;
use syntax::nodes;
use syntax::whole::WholeTree;

// The last assignment or if-then, at this node or before.
fn latest(kind: u8, here: usize, last: usize) -> usize
    ensures { (kind ≡ 17 → result ≡ here) × (kind ≡ 18 → result ≡ here) × ((kind ≡ 17 → ⊥) → (kind ≡ 18 → ⊥) → result ≡ last) }
{
    match Kind::try_from(kind) {
        Ok(Kind::Assignment | Kind::IfThen) => here,
        _ => last,
    }
}

// The owner of each node from the assertion on. By index: over a part of each slice the places would count from the assertion, and of what
// is written through a `zip` of `iter_mut` a proof knows nothing afterwards.
fn own(kinds: &[u8], assertion: usize, owners: &mut [u16])
    requires { (length owners.old ≡ length kinds.now) × (length kinds.now < 65536) × (assertion ≤ length kinds.now) }
    ensures { Owners kinds.now assertion (length kinds.now) (λ p. get_or owners.new p 0) }
{
    let mut owner = assertion;
    for here in assertion..kinds.len() {
        owner = latest(kinds[here], here, owner);
        owners[here] = owner as u16;
    }
}

// A node that mentions a variable becomes its first mention, before the one that was first.
fn mention(tree: &WholeTree<'_>, heads: &mut [u16], mentions: &mut [u16], at: usize)
    requires { (length mentions.old ≡ length tree.now.kinds.now) × (length tree.now.kinds.now < 65536) × (at < length tree.now.kinds.now) }
    ensures { Linked tree.now.kinds.now tree.now.parameters.now (at + 1) heads.old mentions.old
        → Linked tree.now.kinds.now tree.now.parameters.now at heads.new mentions.new }
{
    if !kinds::stands_for(tree.kinds[at], Kind::Variable) {
        return;
    }
    let variable = nodes::magnitude(tree.parameters[at]);
    let Some(head) = heads.get(variable) else {
        return;
    };
    mentions[at] = *head;
    // Not through `get_mut`: of the slice that it lends from a proof knows afterwards only how long it is.
    heads[variable] = at as u16;
}

// The first mention of each variable from the assertion on, after each mention the next of the same variable, and the owners.
pub fn index(
    tree: &WholeTree<'_>,
    assertion: usize,
    heads: &mut [u16],
    mentions: &mut [u16],
    owners: &mut [u16],
)
    requires { (length mentions.old ≡ length tree.now.kinds.now) × (length owners.old ≡ length tree.now.kinds.now)
        × (length tree.now.kinds.now < 65536) × (assertion ≤ length tree.now.kinds.now) }
    ensures { Indexed tree.now.kinds.now tree.now.parameters.now assertion (length heads.old) heads.new mentions.new owners.new }
{
    let n = tree.kinds.len();
    heads.fill(n as u16);
    for at in (assertion..n).rev() {
        mention(tree, heads, mentions, at);
    }
    own(tree.kinds, assertion, owners);
}
