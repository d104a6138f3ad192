//! The lines of a text that aren't empty, with their numbers.

ghost use Rattle.std.specs.Prelude.{◌≡◌, ◌∷◌, [], IfErr, IfOk};
ghost use Rattle.line_words.specs.Lines.{lines_of};
ghost use Rattle.threads_console.specs.Lines.{all_left};

use line_words::cut_line;
use std::marker::Model;

/// The lines that are left of a text. Empty ones are passed over, and counted.
#[derive(Drop)]
pub struct Lines<'a> {
    /// How many lines came before.
    number: u64,
    left: Option<&'a [u8]>,
}

impl<'a> Model for Lines<'a> {
    ghost use Rattle.std.specs.Prelude.{◌+◌, ◌<◌, ◌^◌, option_map};
    ghost use Rattle.threads_console.specs.Lines.{LinesLeft, left_behind, length_left};

    ghost Value = { LinesLeft };

    ghost view = { λ a. left_behind a.number (option_map (λ text. text.now) a.left) };

    ghost invariant = { λ a. a.number + length_left (option_map (λ text. text.now) a.left) + 1 < 2 ^ 64 };
}

impl<'a> Lines<'a> {
    /// All lines of a text.
    pub fn new(text: &'a [u8]) -> Lines<'a>
        ensures { result ≡ all_left (lines_of text.now) }
    {
        Lines {
            number: 0,
            left: Some(text),
        }
    }

    /// The next line that isn't empty, and its number: all lines count, from 1 on. Where there is none, the number of the line behind the
    /// last.
    #[tactic(auto, using(crate::proofs::Cuts::empty_line, crate::proofs::Cuts::full_line, crate::proofs::Cuts::empty_end, crate::proofs::Cuts::full_end))]
    pub fn next(&mut self) -> Result<(u64, &'a [u8]), u64>
        ensures next { IfOk result (λ cut. self.old.lines ≡ (cut.0, cut.1.now) ∷ self.new.lines) }
        ensures end { IfErr result (λ number. (self.old.lines ≡ []) × (number ≡ self.old.end)) }
        ensures same { self.new.end ≡ self.old.end }
    {
        while let Some(text) = self.left {
            match cut_line(text) {
                Some((line, behind)) => {
                    self.number += 1;
                    self.left = Some(behind);
                    if !line.is_empty() {
                        return Ok((self.number, line));
                    }
                }
                None => {
                    self.left = None;
                    if !text.is_empty() {
                        self.number += 1;
                        return Ok((self.number, text));
                    }
                }
            }
        }
        Err(self.number + 1)
    }
}
