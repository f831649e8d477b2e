//! A list of lines, and its end. Figures are lines in the text format of Prometheus.

use std::alloc::{AllocError, Global};

/// Lines that are collected.
#[derive(Debug, Drop)]
pub(crate) struct Lines {
    alloc: Global,
    text: String,
    count: u64,
}

impl Lines {
    /// None. It takes no memory.
    pub(crate) fn new(alloc: Global) -> Lines {
        Lines {
            alloc,
            text: String::new(alloc),
            count: 0,
        }
    }

    /// Adds a line, which has no line feed.
    pub(crate) fn add(&mut self, line: &str) -> Result<(), AllocError> {
        self.text.push_str(line)?;
        self.text.push_str("\n")?;
        self.count = self.count.saturating_add(1);
        Ok(())
    }

    /// Adds a line of two words and what follows them.
    pub(crate) fn words(
        &mut self,
        first: &str,
        second: &str,
        rest: &str,
    ) -> Result<(), AllocError> {
        let line = format!(in self.alloc; "{first} {second} {rest}")?;
        self.add(line.as_str())
    }

    /// Adds a figure of a family that has one alone.
    pub(crate) fn figure(&mut self, name: &str, value: u64) -> Result<(), AllocError> {
        let line = format!(in self.alloc; "{name} {value}")?;
        self.add(line.as_str())
    }

    /// Adds a figure of a family, with what it is of.
    pub(crate) fn labelled(
        &mut self,
        name: &str,
        label: &str,
        of: &str,
        value: u64,
    ) -> Result<(), AllocError> {
        let line = format!(in self.alloc; "{name}{{{label}=\"{of}\"}} {value}")?;
        self.add(line.as_str())
    }

    /// Adds a figure of a family, with its protocol and its reason.
    pub(crate) fn explained(
        &mut self,
        name: &str,
        kind: &str,
        why: &str,
        value: u64,
    ) -> Result<(), AllocError> {
        let line = format!(in self.alloc; "{name}{{kind=\"{kind}\",why=\"{why}\"}} {value}")?;
        self.add(line.as_str())
    }

    /// The lines, each with its line feed.
    pub(crate) fn whole(self) -> String {
        let Lines { text, .. } = self;
        text
    }

    /// The lines, and after them `# end N`, in which N is their number. The last line has no line
    /// feed.
    pub(crate) fn ended(self) -> Result<String, AllocError> {
        let Lines {
            alloc,
            mut text,
            count,
        } = self;
        let end = format!(in alloc; "# end {count}")?;
        text.push_str(end.as_str())?;
        Ok(text)
    }
}
