//! Words while they are read, character by character.
ghost use Rattle.std.specs.Prelude.{◌≡◌, ◌∷◌, ◌++◌, [], ◌↔◌, ◌≤◌, IfOk, IfErr, IsFalse, OnOk, OnErr, Some, None, length, take, if◌then◌else◌};
ghost use Rattle.lb_model_paper.specs.Fonts.{metrics_of};
ghost use Rattle.lb_model_paper.specs.Words.{set_word};
ghost use Rattle.lb_text.specs.Stops.{IsWordStop};

use crate::rewriting::rewrite;
use lb_base::{NoMemory, NodeList, Stop, WordPart};
use lb_tfm::Font;
use std::alloc::Global;
use std::marker::Model;

/// The characters of a word of one font, which contracts see as the list of their codes.
#[derive(Drop)]
pub struct Word {
    codes: Vec<u8>,
    /// Room for the parts of the word while it is rewritten.
    stack: Vec<WordPart>,
}

impl Model for Word {
    ghost use Rattle.std.specs.Prelude.{List, ℕ};

    ghost Value = { List ℕ };

    ghost view = { λ word. word.codes.items };
}

impl Word {
    /// A word without characters. Takes no memory.
    pub fn new(alloc: Global) -> Word
        ensures { result ≡ [] }
    {
        Word {
            codes: Vec::new(alloc),
            stack: Vec::new(alloc),
        }
    }
}

/// Puts a character behind a word. It answers false exactly where the font lacks the code; then, and
/// for want of memory, the word is as it was.
pub fn add_char(word: &mut Word, font: &Font, code: u8) -> Result<bool, NoMemory>
    ensures lacks { IfOk result (λ there. IsFalse there ↔ (metrics_of font.now code ≡ None)) }
    ensures word { IfOk result (λ there. word.new ≡ (if there then word.old ++ code ∷ [] else word.old)) }
    ensures err { OnErr result (word.new ≡ word.old) }
{
    if font.metrics(code).is_none() {
        return Ok(false);
    }
    word.codes.push(code)?;
    Ok(true)
}

/// Puts the nodes of a word behind a list, and leaves the word without characters. `steps` is how
/// many ligature and kerning steps may be taken, and is lowered by those that are. It stops with
/// `StepLimit` exactly where the word needs more. After an error the word, the list and the steps
/// are as they were.
pub fn finish_word(
    alloc: Global,
    word: &mut Word,
    font: &Font,
    list: &mut NodeList,
    steps: &mut u64,
) -> Result<(), Stop>
    ensures ok { OnOk result (set_word font.now steps.old list.old word.old ≡ Some (list.new, steps.new)) }
    ensures emptied { OnOk result (word.new ≡ []) }
    ensures word { OnErr result (word.new ≡ word.old) }
    ensures list { OnErr result (list.new ≡ list.old) }
    ensures steps { OnErr result (steps.new ≡ steps.old) }
    ensures fewer { steps.new ≤ steps.old }
    ensures stop { IfErr result (IsWordStop font.now steps.old list.old word.old) }
{
    let codes = word.codes.as_slice();
    if codes.is_empty() {
        return Ok(());
    }
    let length = list.len();
    match rewrite(alloc, codes, &mut word.stack, font, list, *steps) {
        Ok(left) => {
            *steps = left;
            word.codes.clear();
            Ok(())
        }
        Err(stop) => {
            cut(list, length);
            Err(stop)
        }
    }
}

/// Takes the nodes behind a length away.
fn cut(list: &mut NodeList, kept: usize)
    requires { kept ≤ length list.old }
    ensures { list.new ≡ take kept list.old }
{
    while list.len() > kept {
        list.pop();
    }
}
