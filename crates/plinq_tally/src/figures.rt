ghost use Rattle.std.specs.Prelude.{◌≡◌, ◌++◌, [], IfOk, length, option_map, slice_get};
ghost use Rattle.plinq_tally.specs.FigureText.{figures_text};
ghost use Rattle.plinq_tally.specs.Figures.{figured, figured_number, first_figure, with_number};
ghost use Rattle.plinq_tally.specs.Tallies.{keyed};

use crate::figure::Figure;
use crate::figure_text::{Told, put_figure};
use crate::take_lines::TakeLines;
use indexmap::IndexMap;
use plinq_text::{Number, first_line, number_of, part_at};
use std::alloc::{AllocError, Global};
use std::marker::Model;

/// What numbers come to by their keys, in the order in which these came first.
#[derive(Drop)]
pub struct Figures {
    alloc: Global,
    separator: u8,
    figures: IndexMap<Vec<u8>, Figure>,
}

impl Model for Figures {
    ghost use Rattle.std.specs.Prelude.{ℕ, List, map};
    ghost use Rattle.plinq_tally.specs.declared.figure.Figure.{Figure};

    ghost Value = { ℕ × List (List ℕ × Figure) };

    ghost view = { λ f. (f.separator, map (λ e. (e.0.items, e.1)) f.figures.entries) };
}

impl Figures {
    /// No number came yet. In each line a number stands before the first byte of this value, and its key after it; without that byte
    /// the key is empty.
    pub fn new(alloc: Global, separator: u8) -> Figures
        ensures { result ≡ (separator, []) }
    {
        Figures {
            alloc,
            separator,
            figures: IndexMap::new(alloc),
        }
    }

    /// How many keys there are.
    pub fn len(&self) -> usize
        ensures { result ≡ length self.now.1 }
    {
        self.figures.len()
    }

    /// A key and what its numbers come to, by its place among those that came, counted from 0.
    pub fn get(&self, index: usize) -> Option<(&[u8], Figure)>
        ensures { option_map (λ p. (p.0.now, p.1)) result ≡ slice_get self.now.1 index }
    {
        match self.figures.get_index(index) {
            Some((key, figure)) => Some((key.as_slice(), *figure)),
            None => None,
        }
    }

    /// Appends a line for each key: what is told of its numbers and, unless the key is empty, a tab and the key.
    ///
    /// # Errors
    ///
    /// [`AllocError`] if memory runs out.
    pub fn put_lines(&self, told: Told, out: &mut Vec<u8>) -> Result<(), AllocError>
        ensures { IfOk result (λ _. out.new.items ≡ out.old.items ++ figures_text told self.now.1) }
    {
        for i in 0..self.len() {
            if let Some((key, figure)) = self.get(i) {
                put_figure(told, key, figure, out)?;
            }
        }
        Ok(())
    }

    fn take_line(&mut self, text: &[u8]) -> Result<(), AllocError>
        ensures { IfOk result (λ _. self.new ≡ (self.old.0, figured self.old.0 self.old.1 text.now)) }
    {
        let parts = part_at(text, self.separator);
        self.take_number(number_of(parts.before), parts.after)
    }

    fn take_number(&mut self, number: Option<Number>, key: &[u8]) -> Result<(), AllocError>
        ensures { IfOk result (λ _. self.new ≡ (self.old.0, figured_number (option_map (λ n. n.billionths) number) key.now self.old.1)) }
    {
        let Some(number) = number else {
            return Ok(());
        };
        self.take_keyed(number, key)
    }

    fn take_keyed(&mut self, number: Number, key: &[u8]) -> Result<(), AllocError>
        ensures { IfOk result (λ _. self.new ≡ (self.old.0, keyed (first_figure number.billionths) (with_number number.billionths) self.old.1 key.now)) }
    {
        match self.figures.get_index_of(key) {
            Some(at) => {
                self.figures[at] = self.figures[at].with(number);
                Ok(())
            }
            None => {
                let mut kept = Vec::new(self.alloc);
                kept.extend_from_slice(key)?;
                self.figures.insert(kept, Figure::of(number))?;
                Ok(())
            }
        }
    }
}

impl TakeLines for Figures {
    ghost after = { λ v l. (v.0, figured v.0 v.1 l.text) };

    /// A line without a number is left out.
    fn take_lines(&mut self, text: &[u8]) -> Result<(), AllocError> {
        let mut rest = text;
        while let Some(line) = first_line(rest) {
            self.take_line(line.text)?;
            rest = line.rest;
        }
        Ok(())
    }
}
