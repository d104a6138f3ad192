ghost use Rattle.std.specs.Prelude.{◌≡◌, option_map, option_and_then, if◌then◌else◌};
ghost use Rattle.std.specs.Str.{bytes_eq};
ghost use Rattle.serde_json.specs.Find.{as_str, as_bool};
ghost use Rattle.trace_text.specs.Fields.{data_of, fields_by, fields_put, no_fields};
ghost use Rattle.trace_text.specs.Entries.{number_in};

use line_words::is_word;

/// The value of a field, as far as an entry asks for it.
#[derive(Clone, Copy, Drop)]
pub enum Field<'a> {
    Text(&'a [u8]),
    Number(u64),
    Flag(bool),
    /// Null, a number with a sign, a point or an exponent or too large, a list or an object.
    Other,
}

impl<'a> Field<'a> {
    pub(crate) fn text(self) -> Option<&'a [u8]>
        ensures { option_map (λ s. s.now) result ≡ as_str (data_of self.entry) }
    {
        match self {
            Field::Text(text) => Some(text),
            _ => None,
        }
    }

    pub(crate) fn number(self) -> Option<u64>
        ensures { result ≡ number_in (Some (data_of self.entry)) }
    {
        match self {
            Field::Number(number) => Some(number),
            _ => None,
        }
    }

    pub(crate) fn flag(self) -> Option<bool>
        ensures { result ≡ as_bool (data_of self.entry) }
    {
        match self {
            Field::Flag(flag) => Some(flag),
            _ => None,
        }
    }
}

/// The fields of an entry, but for the messages that it sent. None where a field is left out.
#[derive(Clone, Copy, Drop)]
pub struct Fields<'a> {
    pub name: Option<Field<'a>>,
    pub message: Option<Field<'a>>,
    pub fault: Option<Field<'a>>,
    pub kept: Option<Field<'a>>,
    pub queue: Option<Field<'a>>,
    pub priority: Option<Field<'a>>,
    pub payload: Option<Field<'a>>,
    pub origin: Option<Field<'a>>,
    pub id: Option<Field<'a>>,
}

impl<'a> Fields<'a> {
    pub(crate) fn new() -> Fields<'a>
        ensures { fields_by result ≡ no_fields }
    {
        Fields {
            name: None,
            message: None,
            fault: None,
            kept: None,
            queue: None,
            priority: None,
            payload: None,
            origin: None,
            id: None,
        }
    }

    /// Forgets all fields.
    pub(crate) fn clear(&mut self)
        ensures { fields_by self.new ≡ no_fields }
    {
        self.name = None;
        self.message = None;
        self.fault = None;
        self.kept = None;
        self.queue = None;
        self.priority = None;
        self.payload = None;
        self.origin = None;
        self.id = None;
    }

    /// Takes one more member of an object: of equal keys the last counts, and a key that nobody asks for is passed over.
    pub(crate) fn put(&mut self, key: &[u8], field: Field<'a>)
        ensures { fields_by self.new ≡ fields_put (fields_by self.old) key.now (data_of field.entry) }
    {
        if is_word(key, "do") {
            self.name = Some(field);
        } else if is_word(key, "msg") {
            self.message = Some(field);
        } else if is_word(key, "fault") {
            self.fault = Some(field);
        } else if is_word(key, "kept") {
            self.kept = Some(field);
        } else if is_word(key, "queue") {
            self.queue = Some(field);
        } else if is_word(key, "priority") {
            self.priority = Some(field);
        } else if is_word(key, "payload") {
            self.payload = Some(field);
        } else if is_word(key, "origin") {
            self.origin = Some(field);
        } else if is_word(key, "id") {
            self.id = Some(field);
        }
    }
}
