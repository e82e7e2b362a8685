//! What is said of what other languages have.

ghost use Rattle.std.specs.Prelude.{◌≡◌, option_map};
ghost use Rattle.sect_advice.specs.Wording.{words_of, sign_words as sign_words_by};
ghost use Rattle.sect_advice.specs.Wording.{declared_words as declared_words_by};
ghost use Rattle.sect_advice.specs.Wording.{statement_words as statement_words_by};

/// What is to be written instead, by what stands there.
#[derive(Clone, Copy)]
pub enum Advice {
    /// An array, or a place in one.
    Array,
    /// A field behind an arrow.
    Arrow,
    /// A procedure that is called as a function is.
    Call,
    /// A comment of another form.
    Comment,
    /// An assignment that computes, as `+=` and `++`.
    Compound,
    /// A test of two tests.
    Connective,
    /// A declaration of another form.
    Declaration,
    /// A division, or its rest.
    Division,
    /// A test behind `else`.
    ElseIf,
    /// `>` or `>=`.
    Greater,
    /// A declaration with a value.
    Initial,
    /// A jump out of a loop, or to its test.
    Jump,
    /// A declaration behind a statement.
    LocalsFirst,
    /// A loop of another form.
    Loop,
    /// A number with a sign.
    Negative,
    /// A test that is turned round.
    Not,
    /// The null of another language.
    Null,
    /// Several names in one declaration.
    OneEach,
    /// A field where a local is wanted, or a field of a field.
    OneField,
    /// A declaration behind one that comes after it.
    Order,
    /// Code outside threads and procedures.
    Outside,
    /// A test without parentheses.
    Parentheses,
    /// A record of another form.
    Record,
    /// A return.
    Return,
    /// A lock that is taken.
    Section,
    /// A line whose end lacks.
    Semicolon,
    /// A brace that closes none.
    SpareBrace,
    /// A semicolon behind a brace.
    SpareSemicolon,
    /// A value as a test.
    Test,
    /// A text or a character.
    Texts,
    /// A truth value.
    Truth,
    /// A type of another language.
    Types,
}

impl Advice {
    /// What is said of a sign.
    fn sign_words(self) -> Option<&'static str>
        ensures { option_map (λ words. words.now) result ≡ sign_words_by self }
    {
        let words = match self {
            Advice::Array => {
                "there are no arrays: objects that refer to one another make a list or a tree"
            }
            Advice::Arrow => { "a field stands behind a dot, as in `x = a.bal;`" }
            Advice::Comment => { "a comment begins with `//` and ends with its line" }
            Advice::Compound => { "what is computed is assigned, as in `x = x + 1;`" }
            Advice::Connective => { "there is no `&&` and no `||`: one `if` stands inside another" }
            Advice::Division => { "`+`, `-` and `*` are all that computes" }
            Advice::Greater => {
                "there is no `>` and no `>=`: the sides change places, as in `0 < x`"
            }
            Advice::Negative => { "a number has no sign, but `x = 0 - 1;` computes one" }
            Advice::Not => {
                "there is no `!`: a test compares two values, as in `x != null` or `x == 0`"
            }
            Advice::SpareBrace => { "no brace is open here" }
            Advice::SpareSemicolon => { "no `;` stands behind a declaration's `}`" }
            Advice::Semicolon => {
                "a statement and a declaration end with `;`, which lacks on the line before"
            }
            _ => return None,
        };
        Some(words)
    }

    /// What is said of a declaration, a type or a value.
    fn declared_words(self) -> Option<&'static str>
        ensures { option_map (λ words. words.now) result ≡ declared_words_by self }
    {
        let words = match self {
            Advice::Declaration => {
                "a local is declared by its type and its name, as in `int x;`"
            }
            Advice::Initial => {
                "a local begins as 0 or null: it is declared by `int x;`, and then assigned to, as in `x = 5;`"
            }
            Advice::LocalsFirst => {
                "locals are declared before the first statement of a thread or a procedure"
            }
            Advice::Null => { "the reference to no object is `null`" }
            Advice::OneEach => { "each has a declaration of its own, as in `int x; int y;`" }
            Advice::Order => { "records come first, then globals, procedures and threads" }
            Advice::Outside => {
                "code stands in threads and procedures, as in `thread main { .. }`"
            }
            Advice::Record => { "a record is declared as in `record Acct { int bal; }`" }
            Advice::Texts => {
                "values are integers and references: there are no strings and no characters"
            }
            Advice::Truth => {
                "there are no truth values: a test compares two values, as in `x == 1`"
            }
            Advice::Types => { "the types are `int` and the names of records" }
            _ => return None,
        };
        Some(words)
    }

    /// What is said of a statement, or of a part of one.
    fn statement_words(self) -> Option<&'static str>
        ensures { option_map (λ words. words.now) result ≡ statement_words_by self }
    {
        let words = match self {
            Advice::Call => { "a procedure is called by `call f(1);`, and gives no value" }
            Advice::ElseIf => {
                "behind `else` stands a block, as in `else { if (x == 1) { .. } }`"
            }
            Advice::Jump => {
                "there is no `break` and no `continue`: a loop ends when its test doesn't hold"
            }
            Advice::Loop => { "`while (x < 3) { .. }` is the only loop" }
            Advice::OneField => {
                "a statement follows one field: a local takes it first, as in `x = a.bal;`"
            }
            Advice::Parentheses => { "a test stands in parentheses, as in `while (x < 3) { .. }`" }
            Advice::Return => {
                "there is no `return`: a procedure hands a value on in a field of an object"
            }
            Advice::Section => { "a section is `atomic { .. }`: which locks it takes is inferred" }
            Advice::Test => { "a test compares two values, as in `x != null` or `x == 1`" }
            _ => return None,
        };
        Some(words)
    }

    /// What is to be written, in a sentence without its stop.
    pub fn words(self) -> &'static str
        ensures { result.now ≡ words_of self }
    {
        if let Some(words) = self.sign_words() {
            return words;
        }
        if let Some(words) = self.declared_words() {
            return words;
        }
        match self.statement_words() {
            Some(words) => words,
            None => "",
        }
    }
}
