ghost use Rattle.std.specs.Prelude.{◌≡◌, ◌++◌, [], IfOk, length, option_map, slice_get};
ghost use Rattle.plinq_tally.specs.Tallies.{count_line, counted, tallied, tally_text, total, total_text};
ghost use Rattle.plinq_text.specs.Lines.{lines_of};

use crate::take_lines::TakeLines;
use indexmap::IndexMap;
use itoa::Buffer;
use plinq_text::first_line;
use std::alloc::{AllocError, Global};
use std::marker::Model;

/// How often each text came, in the order in which they came first (.NET's `CountBy`). Counts are modulo 2^64.
#[derive(Drop)]
pub struct Tally {
    alloc: Global,
    counts: IndexMap<Vec<u8>, u64>,
}

impl Model for Tally {
    ghost use Rattle.std.specs.Prelude.{ℕ, List, map};

    ghost Value = { List (List ℕ × ℕ) };

    ghost view = { λ t. map (λ e. (e.0.items, e.1)) t.counts.entries };
}

impl Tally {
    /// Nothing came yet.
    pub fn new(alloc: Global) -> Tally
        ensures { result ≡ [] }
    {
        Tally {
            alloc,
            counts: IndexMap::new(alloc),
        }
    }

    fn count_lines(&mut self, text: &[u8]) -> Result<(), AllocError>
        ensures { IfOk result (λ _. self.new ≡ tallied self.old (lines_of text.now)) }
    {
        let mut rest = text;
        while let Some(line) = first_line(rest) {
            self.count(line.text)?;
            rest = line.rest;
        }
        Ok(())
    }

    /// How many texts came that differ.
    pub fn len(&self) -> usize
        ensures { result ≡ length self.now }
    {
        self.counts.len()
    }

    /// A text and its count, by its place among those that came, counted from 0.
    pub fn get(&self, index: usize) -> Option<(&[u8], u64)>
        ensures { option_map (λ p. (p.0.now, p.1)) result ≡ slice_get self.now index }
    {
        match self.counts.get_index(index) {
            Some((text, count)) => Some((text.as_slice(), *count)),
            None => None,
        }
    }

    /// How many texts came in all, modulo 2^64.
    pub fn total(&self) -> u64
        ensures { result ≡ total self.now }
    {
        let mut total: u64 = 0;
        for i in 0..self.len() {
            if let Some((_, count)) = self.get(i) {
                total = total.wrapping_add(count);
            }
        }
        total
    }

    /// Appends a line of how many texts came in all.
    ///
    /// # Errors
    ///
    /// [`AllocError`] if memory runs out.
    pub fn put_total(&self, out: &mut Vec<u8>) -> Result<(), AllocError>
        ensures { IfOk result (λ _. out.new.items ≡ out.old.items ++ total_text self.now) }
    {
        let mut digits = Buffer::new();
        out.extend_from_slice(digits.format(self.total()).as_bytes())?;
        out.push(b'\n')?;
        Ok(())
    }

    /// Appends a line for each text: its count, a tab, the text.
    ///
    /// # Errors
    ///
    /// [`AllocError`] if memory runs out.
    pub fn put_lines(&self, out: &mut Vec<u8>) -> Result<(), AllocError>
        ensures { IfOk result (λ _. out.new.items ≡ out.old.items ++ tally_text self.now) }
    {
        for i in 0..self.len() {
            if let Some((text, count)) = self.get(i) {
                put_line(text, count, out)?;
            }
        }
        Ok(())
    }

    fn count(&mut self, text: &[u8]) -> Result<(), AllocError>
        ensures { IfOk result (λ _. self.new ≡ counted self.old text.now) }
    {
        match self.counts.get_index_of(text) {
            Some(at) => {
                self.counts[at] = self.counts[at].wrapping_add(1);
                Ok(())
            }
            None => {
                let mut key = Vec::new(self.alloc);
                key.extend_from_slice(text)?;
                self.counts.insert(key, 1)?;
                Ok(())
            }
        }
    }
}

impl TakeLines for Tally {
    ghost after = { λ gs l. counted gs l.text };

    fn take_lines(&mut self, text: &[u8]) -> Result<(), AllocError> {
        self.count_lines(text)
    }
}

fn put_line(text: &[u8], count: u64, out: &mut Vec<u8>) -> Result<(), AllocError>
    ensures { IfOk result (λ _. out.new.items ≡ out.old.items ++ count_line (text.now, count)) }
{
    let mut digits = Buffer::new();
    out.extend_from_slice(digits.format(count).as_bytes())?;
    out.push(b'\t')?;
    out.extend_from_slice(text)?;
    out.push(b'\n')?;
    Ok(())
}
