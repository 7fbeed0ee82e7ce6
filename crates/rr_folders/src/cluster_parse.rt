//! Reading the file of a cluster, and that of a node's folder.

ghost use Rattle.std.specs.Prelude.{◌≡◌, ◌++◌, length, List, ℕ, [], Some, None, IfSome, MatchOption};
ghost use Rattle.rr_folders.specs.declared.cluster.Cluster.{Cluster as ClusterOf};
ghost use Rattle.rr_folders.specs.declared.cluster.Mark.{Mark as MarkOf};
ghost use Rattle.rr_folders.specs.Clusters.{IsCluster, IsMark};
ghost use Rattle.rr_folders.specs.ClusterTexts.{cluster_text, mark_text};
ghost use Rattle.rr_folders.specs.Reading.{line_at, identity_at, head_at, count_at, node_at, cluster_at, number_then_at, digest_at, reached_at, replaced_at, plain_mark_at, far_mark_at, mark_at};

use crate::cluster::{Cluster, Course, Digest, Identity, Mark, Reached};
use rr_text::text_read::{cut, number, set};
use rr_types::{NodeId, Nodes};

// The text before the line feed, which is the last byte.
fn line(bytes: &[u8]) -> Option<&[u8]>
    ensures { MatchOption result (line_at bytes.now ≡ None) (λ t. line_at bytes.now ≡ Some t.now) }
{
    match cut(bytes, b'\n') {
        Some((text, [])) => Some(text),
        _ => None,
    }
}

// A cluster's identity, and the text behind it.
fn identity(text: &[u8]) -> Option<(Identity, &[u8])>
    ensures { MatchOption result (identity_at text.now ≡ None) (λ x. identity_at text.now ≡ Some (x.0, x.1.now)) }
{
    let (word, rest) = cut(text, b' ')?;
    let first = number(word)?;
    let (word, rest) = cut(rest, b' ')?;
    let second = number(word)?;
    Some((Identity { first, second }, rest))
}

// The identity behind the word that says what file it is, and the text behind that.
fn head<'a>(word: &[u8], text: &'a [u8]) -> Option<(Identity, &'a [u8])>
    ensures { MatchOption result (head_at word.now text.now ≡ None) (λ x. head_at word.now text.now ≡ Some (x.0, x.1.now)) }
{
    let (first, rest) = cut(text, b' ')?;
    if first == word { identity(rest) } else { None }
}

// The number of nodes that a word is.
fn count(word: &[u8]) -> Option<Nodes>
    ensures { result ≡ count_at word.now }
{
    match word {
        [digit] if *digit >= b'0' => Nodes::new(*digit - b'0').ok(),
        _ => None,
    }
}

// The node that a word is.
fn node(word: &[u8]) -> Option<NodeId>
    ensures { result ≡ node_at word.now }
{
    match word {
        [digit] if *digit >= b'0' => NodeId::at(*digit - b'0'),
        _ => None,
    }
}

// How often nodes were replaced, and the text behind that.
fn replaced(text: &[u8]) -> Option<(u64, &[u8])>
    ensures { MatchOption result (replaced_at text.now ≡ None) (λ x. replaced_at text.now ≡ Some (x.0, x.1.now)) }
{
    let (word, rest) = cut(text, b' ')?;
    if word != b"replaced".as_slice() {
        return Some((0, text));
    }
    let (sum, rest) = number_then(rest)?;
    if sum == 0 { None } else { Some((sum, rest)) }
}

// The cluster of a cluster's file.
fn cluster(bytes: &[u8]) -> Option<Cluster>
    ensures { result ≡ cluster_at bytes.now }
{
    let (replaced, rest) = replaced(line(bytes)?)?;
    let (identity, rest) = head(b"cluster-1", rest)?;
    let (word, rest) = cut(rest, b' ')?;
    let nodes = count(word)?;
    let formatted = set(nodes, rest)?;
    Some(Cluster {
        identity,
        nodes,
        formatted,
        replaced,
    })
}

// A number, and the text behind it.
fn number_then(text: &[u8]) -> Option<(u64, &[u8])>
    ensures { MatchOption result (number_then_at text.now ≡ None) (λ x. number_then_at text.now ≡ Some (x.0, x.1.now)) }
{
    let (word, rest) = cut(text, b' ')?;
    Some((number(word)?, rest))
}

// A digest, and the text behind it.
fn digest(text: &[u8]) -> Option<(Digest, &[u8])>
    ensures { MatchOption result (digest_at text.now ≡ None) (λ x. digest_at text.now ≡ Some (x.0, x.1.now)) }
{
    let (first, rest) = number_then(text)?;
    let (second, rest) = number_then(rest)?;
    let (third, rest) = number_then(rest)?;
    let (fourth, rest) = number_then(rest)?;
    Some((
        Digest {
            first,
            second,
            third,
            fourth,
        },
        rest,
    ))
}

// How far an area came, and the text behind it.
fn reached(text: &[u8]) -> Option<(Reached, &[u8])>
    ensures { MatchOption result (reached_at text.now ≡ None) (λ x. reached_at text.now ≡ Some (x.0, x.1.now)) }
{
    let (epoch, rest) = number_then(text)?;
    let (length, rest) = number_then(rest)?;
    let (digest, rest) = digest(rest)?;
    Some((
        Reached {
            epoch,
            length,
            digest,
        },
        rest,
    ))
}

// The mark of a line that doesn't say how far it came.
fn plain_mark(replaced: u64, text: &[u8]) -> Option<Mark>
    ensures { result ≡ plain_mark_at replaced text.now }
{
    let (identity, rest) = head(b"node-1", text)?;
    let node = node(rest)?;
    Some(Mark {
        identity,
        node,
        course: None,
        replaced,
    })
}

// The mark of a line that does.
fn far_mark(replaced: u64, text: &[u8]) -> Option<Mark>
    ensures { result ≡ far_mark_at replaced text.now }
{
    let (identity, rest) = head(b"node-2", text)?;
    let (from, rest) = reached(rest)?;
    let (to, rest) = reached(rest)?;
    let node = node(rest)?;
    Some(Mark {
        identity,
        node,
        course: Some(Course { from, to }),
        replaced,
    })
}

// The mark of the file in a folder.
fn mark(bytes: &[u8]) -> Option<Mark>
    ensures { result ≡ mark_at bytes.now }
{
    let (replaced, text) = replaced(line(bytes)?)?;
    match plain_mark(replaced, text) {
        Some(mark) => Some(mark),
        None => far_mark(replaced, text),
    }
}

impl Cluster {
    /// The cluster that the bytes of a cluster's file name. None: they aren't the text of one. Where a text is cut or goes on,
    /// it is none.
    #[tactic(auto, using(crate::proofs::ClusterReading::cluster_takes))]
    pub fn parse(bytes: &[u8]) -> Option<Cluster>
        // What is read is printed so.
        ensures found { IfSome result (λ c. IsCluster c × (bytes.now ≡ cluster_text c)) }
        // What is printed so is read.
        ensures only { (c : ClusterOf) → IsCluster c → bytes.now ≡ cluster_text c → result ≡ Some c }
    {
        cluster(bytes)
    }
}

impl Mark {
    /// The mark that the bytes of the file in a node's folder are. None: they aren't the text of one.
    #[tactic(auto, using(crate::proofs::ClusterReading::mark_takes))]
    pub fn parse(bytes: &[u8]) -> Option<Mark>
        ensures found { IfSome result (λ m. IsMark m × (bytes.now ≡ mark_text m)) }
        ensures only { (m : MarkOf) → IsMark m → bytes.now ≡ mark_text m → result ≡ Some m }
    {
        mark(bytes)
    }
}
