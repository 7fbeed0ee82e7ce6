//! The labels beside the lines of nodes.

use crate::escape::push_escaped;
use std::alloc::{AllocError, Global};
use std::io;
use std::io::Write;

/// How high a label is.
const HEIGHT: u64 = 8;
/// How far a label may stand below its place, and how far behind a like one an event is still counted with it.
const REACH: u64 = 24;

/// A label: where it stands, its class, its text, how many alike it stands for, and how many others found no place.
#[derive(Debug, Drop)]
struct Label {
    y: u64,
    class: &'static str,
    text: Vec<u8>,
    alike: u64,
    others: u64,
}

/// The labels on one side of a line.
#[derive(Debug, Drop)]
pub(crate) struct Labels {
    labels: Vec<Label>,
    /// Where the next one may stand.
    free: u64,
}

impl Labels {
    /// No labels.
    pub(crate) fn new(alloc: Global) -> Labels {
        Labels {
            labels: Vec::new(alloc),
            free: 0,
        }
    }

    /// Adds a label. Behind a like one that is near it only counts. Where others stand in its place it goes below them, and
    /// where that is too far away the last of them says that there is one more.
    pub(crate) fn add(
        &mut self,
        alloc: Global,
        y: u64,
        class: &'static str,
        text: &[u8],
    ) -> Result<(), AllocError> {
        let far = self.free > y.saturating_add(REACH);
        if let Some(label) = self.labels.last_mut() {
            if label.y.saturating_add(REACH) >= y && label.text.as_slice() == text {
                label.alike = label.alike.saturating_add(1);
                return Ok(());
            }
            if far {
                label.others = label.others.saturating_add(1);
                return Ok(());
            }
        }
        let at = y.max(self.free);
        self.free = at.saturating_add(HEIGHT);
        let mut words = Vec::new(alloc);
        words.extend_from_slice(text)?;
        self.labels.push(Label {
            y: at,
            class,
            text: words,
            alike: 1,
            others: 0,
        })?;
        Ok(())
    }

    /// Appends the labels, which stand at this place from the left.
    pub(crate) fn draw(&self, out: &mut Vec<u8>, x: u64, anchor: &str) -> io::Result<()> {
        for label in &self.labels {
            let (y, class) = (label.y.saturating_add(2), label.class);
            write!(
                out,
                "<text class=\"l {class}{anchor}\" x=\"{x}\" y=\"{y}\">"
            )?;
            push_shown(out, label.text.as_slice())?;
            if label.alike > 1 {
                let alike = label.alike;
                write!(out, " x{alike}")?;
            }
            if label.others > 0 {
                let others = label.others;
                write!(out, " +{others}")?;
            }
            write!(out, "</text>\n")?;
        }
        Ok(())
    }
}

/// Appends a text, whose bytes SVG shows as they are.
fn push_shown(out: &mut Vec<u8>, text: &[u8]) -> io::Result<()> {
    match push_escaped(out, text) {
        Ok(()) => Ok(()),
        Err(_) => Err(io::Error::from(AllocError)),
    }
}
