//! Texts from whole certificates.
ghost use Rattle.std.specs.Prelude.{◌≡◌, ◌++◌, IfOk, OnOk};
ghost use Rattle.box_tree.specs.Certificates.{CertText, IsCert};
ghost use Rattle.box_tree.specs.Texts.{line, lines_of, node_line, node_lines, pair_numbers};

use crate::cert::{Cert, CertFormat, LeafLine, Node};
use arrayvec::ArrayVec;
use itoa::Buffer;
use std::alloc::{AllocError, Global};

/// The text of a certificate in this format.
pub fn write_for(alloc: Global, format: CertFormat, cert: &Cert) -> Result<Vec<u8>, AllocError>
    requires { IsCert format.kind cert.now }
    ensures { IfOk result (λ text. CertText format text.items cert.now) }
{
    text_of(alloc, format, cert)
}

fn text_of(alloc: Global, format: CertFormat, cert: &Cert) -> Result<Vec<u8>, AllocError>
    ensures { IfOk result (λ text. text.items ≡ lines_of format cert.now.claims cert.now.nodes) }
{
    let mut text = Vec::new(alloc);
    put_line(&mut text, b"FZC", &[format.version()])?;
    put_line(&mut text, b"claim", cert.claims.as_slice())?;
    put_nodes(&mut text, cert.nodes.as_slice())?;
    Ok(text)
}

fn put_nodes(text: &mut Vec<u8>, nodes: &[Node]) -> Result<(), AllocError>
    ensures { OnOk result (text.new.items ≡ text.old.items ++ node_lines nodes.now) }
{
    for node in nodes {
        put_node(text, node)?;
    }
    Ok(())
}

fn put_node(text: &mut Vec<u8>, node: &Node) -> Result<(), AllocError>
    ensures { OnOk result (text.new.items ≡ text.old.items ++ node_line node.now) }
{
    match node {
        Node::Split(input, cut) => put_line(text, b"split", &[u32::from(*input), u32::from(*cut)]),
        Node::Leaf(LeafLine::Pairs(pairs)) => {
            put_line(text, b"leaf", numbers_of_pairs(pairs).as_slice())
        }
        Node::Leaf(LeafLine::Tight) => put_line(text, b"leaf", &[]),
        Node::Leaf(LeafLine::Cells) => put_line(text, b"cells", &[]),
    }
}

fn put_line(text: &mut Vec<u8>, word: &[u8], numbers: &[u32]) -> Result<(), AllocError>
    ensures { OnOk result (text.new.items ≡ text.old.items ++ line word.now numbers.now) }
{
    text.extend_from_slice(word)?;
    for number in numbers {
        text.push(b' ')?;
        let mut buffer = Buffer::new();
        text.extend_from_slice(buffer.format(*number).as_bytes())?;
    }
    text.push(b'\n')?;
    Ok(())
}

/// The numbers of pairs, one pair after the other.
fn numbers_of_pairs(pairs: &ArrayVec<(u16, u8), 4>) -> ArrayVec<u32, 8>
    ensures { result.items ≡ pair_numbers pairs.now.items }
{
    let mut numbers = ArrayVec::new();
    for pair in pairs.as_slice() {
        numbers.push(u32::from(pair.0));
        numbers.push(u32::from(pair.1));
    }
    numbers
}
