//! Printing the file of a cluster, and that of a node's folder.

ghost use Rattle.std.specs.Prelude.{◌≡◌, ◌++◌, ◌∷◌, decimal, OnOk, IfOk};
ghost use Rattle.rr_folders.specs.ClusterTexts.{cluster_text, digest_words, reached_words, far_words, replaced_front, mark_text};

use crate::cluster::{Cluster, Course, Digest, Identity, Mark, Reached};
use rr_text::text_word::{push_byte, push_bytes, push_number_word, push_set};
use std::alloc::{AllocError, Global};

// Appends how often nodes were replaced; nothing where none was.
fn push_replaced(out: &mut Vec<u8>, replaced: u64) -> Result<(), AllocError>
    ensures ok { OnOk result (out.new.items ≡ out.old.items ++ replaced_front replaced) }
{
    if replaced == 0 {
        return Ok(());
    }
    push_bytes(out, b"replaced")?;
    push_number_word(out, replaced)?;
    push_byte(out, b' ')
}

// Appends what both files begin with: what it is, and the cluster's identity.
fn push_head(out: &mut Vec<u8>, word: &[u8], identity: Identity) -> Result<(), AllocError>
    ensures ok { OnOk result (out.new.items ≡ out.old.items ++ (word.now ++ 32 ∷ (decimal identity.first ++ 32 ∷ decimal identity.second))) }
{
    push_bytes(out, word)?;
    push_number_word(out, identity.first)?;
    push_number_word(out, identity.second)
}

// Appends a digest.
fn push_digest(out: &mut Vec<u8>, digest: Digest) -> Result<(), AllocError>
    ensures ok { OnOk result (out.new.items ≡ out.old.items ++ 32 ∷ digest_words digest) }
{
    push_number_word(out, digest.first)?;
    push_number_word(out, digest.second)?;
    push_number_word(out, digest.third)?;
    push_number_word(out, digest.fourth)
}

// Appends how far an area came.
fn push_reached(out: &mut Vec<u8>, reached: Reached) -> Result<(), AllocError>
    ensures ok { OnOk result (out.new.items ≡ out.old.items ++ 32 ∷ reached_words reached) }
{
    push_number_word(out, reached.epoch)?;
    push_number_word(out, reached.length)?;
    push_digest(out, reached.digest)
}

// Appends what a mark begins with that says how far a disk came.
fn push_far_head(out: &mut Vec<u8>, identity: Identity, course: Course) -> Result<(), AllocError>
    ensures ok { OnOk result (out.new.items ≡ out.old.items ++ far_words identity course) }
{
    push_head(out, b"node-2", identity)?;
    push_reached(out, course.from)?;
    push_reached(out, course.to)
}

impl Cluster {
    /// The bytes of the cluster's file.
    ///
    /// # Errors
    /// `OutOfMemory`.
    pub fn text(&self, alloc: Global) -> Result<Vec<u8>, AllocError>
        ensures ok { IfOk result (λ v. v.items ≡ cluster_text self.now) }
    {
        let mut out = Vec::new(alloc);
        push_replaced(&mut out, self.replaced)?;
        push_head(&mut out, b"cluster-1", self.identity)?;
        push_number_word(&mut out, u64::from(self.nodes.count()))?;
        push_set(&mut out, self.formatted)?;
        push_byte(&mut out, b'\n')?;
        Ok(out)
    }
}

impl Mark {
    /// The bytes of the file in the node's folder.
    ///
    /// # Errors
    /// `OutOfMemory`.
    pub fn text(&self, alloc: Global) -> Result<Vec<u8>, AllocError>
        ensures ok { IfOk result (λ v. v.items ≡ mark_text self.now) }
    {
        let mut out = Vec::new(alloc);
        push_replaced(&mut out, self.replaced)?;
        match self.course {
            None => push_head(&mut out, b"node-1", self.identity)?,
            Some(course) => push_far_head(&mut out, self.identity, course)?,
        }
        push_number_word(&mut out, u64::from(self.node.index()))?;
        push_byte(&mut out, b'\n')?;
        Ok(out)
    }
}
