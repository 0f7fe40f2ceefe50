//! The words that lines begin with.

ghost use Rattle.std.specs.Prelude.{◌≡◌};
ghost use Rattle.gl_line_reader.specs.Keywords.{bare_line, about, about_two};
ghost use Rattle.gl_line_reader.specs.Keywords.{with_value, with_index, with_value_at, with_order};

use gl_lang::Order;
use gl_lines::{Line, Named};
use gl_syntax::Value;

/// What a line is made of after its first word, and which line of that form it is.
#[derive(Clone, Copy)]
pub(crate) enum Keyword {
    Bare(Bare),
    Limit,
    OneName(OneName),
    TwoNames(TwoNames),
    NameValue(NameValue),
    AddAll,
    Match,
    Order,
    Bounds,
    Apply,
    NameIndex(NameIndex),
    NameIndexValue(NameIndexValue),
    Filter,
    NamesOrder(NamesOrder),
    Range,
    Function,
    Collection,
    Composite,
    Listen,
}

/// Lines with nothing after the word.
#[derive(Clone, Copy)]
pub(crate) enum Bare {
    EndCsv,
    Writer,
    Section,
}

/// Lines of a name.
#[derive(Clone, Copy)]
pub(crate) enum OneName {
    Source,
    Csv,
    Clear,
    Begin,
    Commit,
    Rollback,
    Freeze,
    Thaw,
    Show,
}

/// Lines of two names.
#[derive(Clone, Copy)]
pub(crate) enum TwoNames {
    Transaction,
    Freezable,
    Proxy,
    Attach,
}

/// Lines of a name and a value.
#[derive(Clone, Copy)]
pub(crate) enum NameValue {
    Row,
    Add,
}

/// Lines of a name and an index.
#[derive(Clone, Copy)]
pub(crate) enum NameIndex {
    Remove,
    Detach,
}

/// Lines of a name, an index and a value.
#[derive(Clone, Copy)]
pub(crate) enum NameIndexValue {
    Insert,
    Set,
}

/// Lines of two names and an order.
#[derive(Clone, Copy)]
pub(crate) enum NamesOrder {
    Sorted,
    Unique,
    Grouping,
}

/// The words of lines, each with the byte after it where more follows. None begins another.
pub(crate) const KEYWORDS: [(&str, Keyword); 37] = [
    ("limit ", Keyword::Limit),
    ("source ", Keyword::OneName(OneName::Source)),
    ("row ", Keyword::NameValue(NameValue::Row)),
    ("csv ", Keyword::OneName(OneName::Csv)),
    ("end csv", Keyword::Bare(Bare::EndCsv)),
    ("filter ", Keyword::Filter),
    ("sorted ", Keyword::NamesOrder(NamesOrder::Sorted)),
    ("unique ", Keyword::NamesOrder(NamesOrder::Unique)),
    ("grouping ", Keyword::NamesOrder(NamesOrder::Grouping)),
    ("range ", Keyword::Range),
    ("function ", Keyword::Function),
    ("collection ", Keyword::Collection),
    ("composite ", Keyword::Composite),
    ("transaction ", Keyword::TwoNames(TwoNames::Transaction)),
    ("freezable ", Keyword::TwoNames(TwoNames::Freezable)),
    ("proxy ", Keyword::TwoNames(TwoNames::Proxy)),
    ("listen ", Keyword::Listen),
    ("writer", Keyword::Bare(Bare::Writer)),
    ("section", Keyword::Bare(Bare::Section)),
    ("add ", Keyword::NameValue(NameValue::Add)),
    ("addall ", Keyword::AddAll),
    ("insert ", Keyword::NameIndexValue(NameIndexValue::Insert)),
    ("set ", Keyword::NameIndexValue(NameIndexValue::Set)),
    ("remove ", Keyword::NameIndex(NameIndex::Remove)),
    ("clear ", Keyword::OneName(OneName::Clear)),
    ("match ", Keyword::Match),
    ("order ", Keyword::Order),
    ("bounds ", Keyword::Bounds),
    ("apply ", Keyword::Apply),
    ("attach ", Keyword::TwoNames(TwoNames::Attach)),
    ("detach ", Keyword::NameIndex(NameIndex::Detach)),
    ("begin ", Keyword::OneName(OneName::Begin)),
    ("commit ", Keyword::OneName(OneName::Commit)),
    ("rollback ", Keyword::OneName(OneName::Rollback)),
    ("freeze ", Keyword::OneName(OneName::Freeze)),
    ("thaw ", Keyword::OneName(OneName::Thaw)),
    ("show ", Keyword::OneName(OneName::Show)),
];

impl Bare {
    /// The line that is the word alone.
    pub(crate) fn line(self) -> Line
        ensures { result ≡ bare_line self }
    {
        match self {
            Bare::EndCsv => Line::EndCsv,
            Bare::Writer => Line::Writer,
            Bare::Section => Line::Section,
        }
    }
}

impl OneName {
    /// The line about the name.
    pub(crate) fn line(self, name: Named) -> Line
        ensures { result ≡ about self name }
    {
        match self {
            OneName::Source => Line::Source { name },
            OneName::Csv => Line::Csv { list: name },
            OneName::Clear => Line::Clear { list: name },
            OneName::Begin => Line::Begin { list: name },
            OneName::Commit => Line::Commit { list: name },
            OneName::Rollback => Line::Rollback { list: name },
            OneName::Freeze => Line::Freeze { list: name },
            OneName::Thaw => Line::Thaw { list: name },
            OneName::Show => Line::Show { list: name },
        }
    }
}

impl TwoNames {
    /// The line about both names.
    pub(crate) fn line(self, first: Named, second: Named) -> Line
        ensures { result ≡ about_two self first second }
    {
        match self {
            TwoNames::Transaction => Line::Transaction {
                name: first,
                input: second,
            },
            TwoNames::Freezable => Line::Freezable {
                name: first,
                input: second,
            },
            TwoNames::Proxy => Line::Proxy {
                name: first,
                input: second,
            },
            TwoNames::Attach => Line::Attach {
                list: first,
                member: second,
            },
        }
    }
}

impl NameValue {
    /// The line that gives the list a value.
    pub(crate) fn line(self, list: Named, value: Value) -> Line
        ensures { result ≡ with_value self list value }
    {
        match self {
            NameValue::Row => Line::Row { list, value },
            NameValue::Add => Line::Add { list, value },
        }
    }
}

impl NameIndex {
    /// The line about an index of the list.
    pub(crate) fn line(self, list: Named, index: u32) -> Line
        ensures { result ≡ with_index self list index }
    {
        match self {
            NameIndex::Remove => Line::Remove { list, index },
            NameIndex::Detach => Line::Detach { list, index },
        }
    }
}

impl NameIndexValue {
    /// The line that gives the list a value at an index.
    pub(crate) fn line(self, list: Named, index: u32, value: Value) -> Line
        ensures { result ≡ with_value_at self list index value }
    {
        match self {
            NameIndexValue::Insert => Line::Insert { list, index, value },
            NameIndexValue::Set => Line::Set { list, index, value },
        }
    }
}

impl NamesOrder {
    /// The line of a list in an order.
    pub(crate) fn line(self, name: Named, input: Named, order: Order) -> Line
        ensures { result ≡ with_order self name input order }
    {
        match self {
            NamesOrder::Sorted => Line::Sorted { name, input, order },
            NamesOrder::Unique => Line::Unique { name, input, order },
            NamesOrder::Grouping => Line::Grouping { name, input, order },
        }
    }
}
