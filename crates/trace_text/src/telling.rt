//! What the entries of a history say that their node told, and how it is kept: the texts of all of them stand in one list of bytes.

ghost use Rattle.std.specs.Prelude.{◌≡◌, ◌++◌, ◌∷◌, [], All, length, map, IfOk, OnOk, option_map};
ghost use Rattle.serde_json.specs.Find.{as_str};
ghost use Rattle.trace_text.specs.Fields.{data_of};
ghost use Rattle.trace_text.specs.Tellings.{Grows, IsKept, TellingKept, TellingStands, TextStands, ToldKept, ToldStands, no_fields, telling_by, telling_put, telling_stored, text_said, text_stored, told_at, told_stored};

use crate::fields::Field;
use line_words::is_word;
use std::alloc::{AllocError, Global};
use std::marker::Model;

// the greatest number of 32 bits
const MOST: usize = u32::MAX as usize;

/// A field of what was told.
#[derive(Clone, Copy, Debug, Drop)]
pub enum Said<'a> {
    Text(&'a [u8]),
    /// Another value.
    Other,
}

impl<'a> Said<'a> {
    pub(crate) fn of(field: Field<'a>) -> Said<'a>
        ensures { text_said result ≡ as_str (data_of field.entry) }
    {
        match field.text() {
            Some(text) => Said::Text(text),
            None => Said::Other,
        }
    }
}

/// What an entry says that its node told behind it. None where a field is left out.
#[derive(Clone, Copy, Debug, Drop)]
pub struct Telling<'a> {
    /// Whether it is an object: else it has no fields.
    pub is_object: bool,
    pub group: Option<Said<'a>>,
    pub took: Option<Said<'a>>,
    pub dropped: Option<Said<'a>>,
    pub gone: Option<Said<'a>>,
    pub id: Option<Said<'a>>,
    pub kept: Option<Said<'a>>,
}

impl<'a> Telling<'a> {
    pub(crate) fn new(is_object: bool) -> Telling<'a>
        ensures { telling_by result ≡ no_fields is_object }
    {
        Telling {
            is_object,
            group: None,
            took: None,
            dropped: None,
            gone: None,
            id: None,
            kept: None,
        }
    }

    /// Takes one more member of an object: of equal keys the last counts, and a key that nobody asks for is passed over.
    pub(crate) fn put(&mut self, key: &[u8], said: Said<'a>)
        ensures { telling_by self.new ≡ telling_put (telling_by self.old) key.now (text_said said.entry) }
    {
        if is_word(key, "group") {
            self.group = Some(said);
        } else if is_word(key, "took") {
            self.took = Some(said);
        } else if is_word(key, "dropped") {
            self.dropped = Some(said);
        } else if is_word(key, "gone") {
            self.gone = Some(said);
        } else if is_word(key, "id") {
            self.id = Some(said);
        } else if is_word(key, "kept") {
            self.kept = Some(said);
        }
    }
}

/// A field, as it is kept: where its text begins, and its length.
#[derive(Clone, Copy, Debug, Drop)]
pub enum StoredText {
    Missing,
    Other,
    Text(u32, u32),
}

/// What is told of an entry, as it is kept.
#[derive(Clone, Copy, Debug, Drop)]
pub struct StoredTelling {
    pub is_object: bool,
    pub group: StoredText,
    pub took: StoredText,
    pub dropped: StoredText,
    pub gone: StoredText,
    pub id: StoredText,
    pub kept: StoredText,
}

/// What the entries of a history say that their node told: of each something, or nothing.
#[derive(Debug, Drop)]
pub struct Tellings {
    entries: Vec<Option<StoredTelling>>,
    texts: Vec<u8>,
}

impl Model for Tellings {
    ghost use Rattle.std.specs.Prelude.{List, Option, map, length, All};
    ghost use Rattle.trace_text.specs.Tellings.{TellingData, ToldStands, told_stored};

    ghost Value = { List (Option TellingData) };

    ghost view = { λ a. map (told_stored a.texts.items) a.entries.items };

    ghost invariant = { λ a. All (ToldStands (length a.texts.items)) a.entries.items };
}

impl Tellings {
    /// Of no entries. It takes no memory.
    pub fn new(alloc: Global) -> Tellings
        ensures { result ≡ [] }
    {
        Tellings {
            entries: Vec::new(alloc),
            texts: Vec::new(alloc),
        }
    }

    /// How many entries there are.
    pub fn len(&self) -> usize
        ensures { result ≡ length self.now }
    {
        self.entries.len()
    }

    /// Adds an entry, of which this is told, or nothing. It is refused where memory is short, or where the texts could come to 2^32 bytes.
    pub fn push(&mut self, told: &Option<Telling<'_>>) -> Result<(), AllocError>
        ensures { OnOk result (self.new ≡ self.old ++ option_map telling_by told.now ∷ []) }
    {
        push_told(&mut self.entries, &mut self.texts, told)
    }

    /// What the entry at this place says, if there is one, and it says something.
    pub fn get(&self, place: usize) -> Option<Telling<'_>>
        ensures { option_map telling_by result ≡ told_at self.now place }
    {
        let stored = (*self.entries.get(place)?)?;
        Some(lend_telling(&self.texts, &stored))
    }
}

/// Adds an entry, of which this is told, or nothing.
fn push_told(
    entries: &mut Vec<Option<StoredTelling>>,
    texts: &mut Vec<u8>,
    told: &Option<Telling<'_>>,
) -> Result<(), AllocError>
    requires { All (ToldStands (length texts.old.items)) entries.old.items }
    ensures stands { All (ToldStands (length texts.new.items)) entries.new.items }
    ensures added { OnOk result (map (told_stored texts.new.items) entries.new.items ≡ map (told_stored texts.old.items) entries.old.items ++ option_map telling_by told.now ∷ []) }
{
    entries.reserve(1)?;
    let stored = keep_told(texts, told)?;
    entries.push_reserved(stored);
    Ok(())
}

/// Keeps what is told, if something is.
fn keep_told(
    texts: &mut Vec<u8>,
    told: &Option<Telling<'_>>,
) -> Result<Option<StoredTelling>, AllocError>
    ensures grown { Grows texts.old.items texts.new.items }
    ensures kept { IfOk result (λ stored. ToldKept texts.new.items stored (option_map telling_by told.now)) }
{
    match told {
        Some(telling) => Ok(Some(keep_telling(texts, telling)?)),
        None => Ok(None),
    }
}

/// Keeps the fields of what is told.
fn keep_telling(texts: &mut Vec<u8>, telling: &Telling<'_>) -> Result<StoredTelling, AllocError>
    ensures grown { Grows texts.old.items texts.new.items }
    ensures kept { IfOk result (λ stored. TellingKept texts.new.items stored (telling_by telling.now)) }
{
    let group = keep_text(texts, telling.group)?;
    let took = keep_text(texts, telling.took)?;
    let dropped = keep_text(texts, telling.dropped)?;
    let gone = keep_text(texts, telling.gone)?;
    let id = keep_text(texts, telling.id)?;
    let kept = keep_text(texts, telling.kept)?;
    Ok(StoredTelling {
        is_object: telling.is_object,
        group,
        took,
        dropped,
        gone,
        id,
        kept,
    })
}

/// Keeps a field.
fn keep_text(texts: &mut Vec<u8>, said: Option<Said<'_>>) -> Result<StoredText, AllocError>
    ensures grown { Grows texts.old.items texts.new.items }
    ensures kept { IfOk result (λ stored. IsKept texts.new.items stored (option_map text_said said.entry)) }
{
    match said {
        None => Ok(StoredText::Missing),
        Some(Said::Other) => Ok(StoredText::Other),
        Some(Said::Text(text)) => {
            let start = texts.len();
            let len = text.len();
            if len > MOST || start > MOST - len {
                return Err(AllocError);
            }
            texts.extend_from_slice(text)?;
            Ok(StoredText::Text(start as u32, len as u32))
        }
    }
}

/// What is told, as it is kept.
fn lend_telling<'a>(texts: &'a [u8], stored: &StoredTelling) -> Telling<'a>
    requires { TellingStands (length texts.now) stored.now }
    ensures { telling_by result ≡ telling_stored texts.now stored.now }
{
    Telling {
        is_object: stored.is_object,
        group: lend_text(texts, stored.group),
        took: lend_text(texts, stored.took),
        dropped: lend_text(texts, stored.dropped),
        gone: lend_text(texts, stored.gone),
        id: lend_text(texts, stored.id),
        kept: lend_text(texts, stored.kept),
    }
}

/// A field, as it is kept.
fn lend_text<'a>(texts: &'a [u8], stored: StoredText) -> Option<Said<'a>>
    requires { TextStands (length texts.now) stored }
    ensures { option_map text_said result ≡ text_stored texts.now stored }
{
    match stored {
        StoredText::Missing => None,
        StoredText::Other => Some(Said::Other),
        StoredText::Text(start, len) => {
            let start = start as usize;
            Some(Said::Text(&texts[start..start + len as usize]))
        }
    }
}
