//! The node of a line.
ghost use Rattle.std.specs.Prelude.{◌≡◌, ◌≢◌, ◌↔◌, ◌≤◌, ◌<◌, ℕ, List, [], ◌∷◌, ◌++◌, length, MatchOption, IfSome, All};
ghost use Rattle.std.specs.Prelude.{IsTrue};
ghost use Rattle.box_tree.specs.declared.{cert.LeafLine.LeafLine as TheForm, cert.Node.Node as TheNode};
ghost use Rattle.box_tree.specs.Certificates.{IsCut, IsLeaf, IsNode, IsPair};
ghost use Rattle.box_tree.specs.Texts.{leaf_line, node_line, pair_numbers};

use crate::cert::{CertKind, LeafLine, Node};
use crate::text::{after, numbers_of};
use arrayvec::ArrayVec;

/// The cut given by two numbers: an input and a byte.
fn cut_of(numbers: &[u32]) -> Option<(u8, u8)>
    ensures { MatchOption result ((input cut : ℕ) → IsCut input cut → numbers.now ≢ input ∷ cut ∷ [])
        (λ r. IsCut r.0 r.1 × (numbers.now ≡ r.0 ∷ r.1 ∷ [])) }
{
    match numbers {
        [input, cut] if *input >= 1 && *input <= 8 && *cut <= 255 => Some((
            *input as u8,
            *cut as u8,
        )),
        _ => None,
    }
}

fn is_pair(rule: u32, part: u32) -> bool
    ensures { IsTrue result ↔ IsPair (rule, part) }
{
    rule <= 256 && part <= 255 && (rule == 0) == (part == 0)
}

/// The numbers as pairs, if there are as many pairs as claims.
fn pairs_of(numbers: &[u32], width: usize) -> Option<ArrayVec<(u16, u8), 4>>
    requires { width ≤ 4 }
    ensures { MatchOption result ((pairs : List (ℕ × ℕ)) → length pairs ≡ width → All IsPair pairs
        → numbers.now ≢ pair_numbers pairs)
        (λ pairs. (length pairs.items ≡ width) × All IsPair pairs.items × (numbers.now ≡ pair_numbers pairs.items)) }
{
    if numbers.len() != 2 * width {
        return None;
    }
    let mut pairs = ArrayVec::new();
    for i in 0..width {
        let rule = numbers[2 * i];
        let part = numbers[2 * i + 1];
        if !is_pair(rule, part) {
            return None;
        }
        pairs.push((rule as u16, part as u8));
    }
    Some(pairs)
}

/// The leaf on the line at the front of a text, and what follows it, in a certificate that names rules.
fn named_leaf_at(text: &[u8], width: usize) -> Option<(LeafLine, &[u8])>
    requires { width ≤ 4 }
    ensures { MatchOption result ((leaf : TheForm) (behind : List ℕ) → IsLeaf CertKind.Named width leaf
        → text.now ≢ leaf_line leaf ++ behind)
        (λ r. IsLeaf CertKind.Named width r.0 × (text.now ≡ leaf_line r.0 ++ r.1.now)) }
{
    let (numbers, behind) = numbers_of(b"leaf", text)?;
    let pairs = pairs_of(numbers.as_slice(), width)?;
    Some((LeafLine::Pairs(pairs), behind))
}

/// The same in one that names none.
fn tight_leaf_at(text: &[u8]) -> Option<(LeafLine, &[u8])>
    ensures { (width : ℕ) → MatchOption result ((leaf : TheForm) (behind : List ℕ) → IsLeaf CertKind.Tight width leaf
        → text.now ≢ leaf_line leaf ++ behind)
        (λ r. IsLeaf CertKind.Tight width r.0 × (text.now ≡ leaf_line r.0 ++ r.1.now)) }
{
    if let Some(behind) = after(b"leaf\n", text) {
        return Some((LeafLine::Tight, behind));
    }
    let behind = after(b"cells\n", text)?;
    Some((LeafLine::Cells, behind))
}

/// The same in a certificate of this kind.
fn leaf_at(text: &[u8], kind: CertKind, width: usize) -> Option<(LeafLine, &[u8])>
    requires { width ≤ 4 }
    ensures { MatchOption result ((leaf : TheForm) (behind : List ℕ) → IsLeaf kind width leaf
        → text.now ≢ leaf_line leaf ++ behind)
        (λ r. IsLeaf kind width r.0 × (text.now ≡ leaf_line r.0 ++ r.1.now)) }
{
    match kind {
        CertKind::Named => named_leaf_at(text, width),
        CertKind::Tight => tight_leaf_at(text),
    }
}

/// The node on the line at the front of a text, and what follows it.
pub(crate) fn node_at(text: &[u8], kind: CertKind, width: usize) -> Option<(Node, &[u8])>
    requires { width ≤ 4 }
    ensures shorter { IfSome result (λ r. length r.1.now < length text.now) }
    ensures node { MatchOption result ((node : TheNode) (behind : List ℕ) → IsNode kind width node
        → text.now ≢ node_line node ++ behind)
        (λ r. IsNode kind width r.0 × (text.now ≡ node_line r.0 ++ r.1.now)) }
{
    match numbers_of(b"split", text) {
        Some((numbers, behind)) => {
            let (input, cut) = cut_of(numbers.as_slice())?;
            Some((Node::Split(input, cut), behind))
        }
        None => {
            let (leaf, behind) = leaf_at(text, kind, width)?;
            Some((Node::Leaf(leaf), behind))
        }
    }
}
