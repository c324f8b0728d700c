// The words of the command line.

ghost use Rattle.std.specs.Prelude.{◌≡◌, ◌∷◌, ℕ, List, Some, MatchOption, IfOk, map, length};
ghost use Rattle.clap.specs.Walk.{rows_of, first_of};
ghost use Rattle.clap.specs.Matches.{found_of};
ghost use Rattle.clap.specs.Words.{app_of, with_rule};
ghost use Rattle.ilspy_cli.specs.Words.{AreMatched, AsksFor, command_of, form_of, names_of, text_rule, texts_of, word_of};
ghost use Rattle.ilspy_cli.specs.Files.{files_of, wanted};

use clap::error::ErrorKind;
use clap::{Arg, ArgMatches};
use dc_base::{NoMemory, Text};
use std::alloc::{AllocError, Global};

/// The most bytes that the file of a lone body may have.
const BODY_LIMIT: u64 = 64;

/// The most bytes that an assembly may have.
const ASSEMBLY_LIMIT: u64 = 16_777_216;

/// What the words ask for, with the names of its files.
#[derive(Debug, Drop)]
pub enum Request {
    /// A lone body as a method.
    Body { file: Text },
    /// The name and the counts of an assembly.
    Show { assembly: Text },
}

impl Request {
    /// The files in the order of the words, each with the most bytes that it may have.
    pub(crate) fn files(&self, alloc: Global) -> Result<Vec<(&Text, u64)>, NoMemory>
        ensures { IfOk result (λ files. map (λ file. wanted file.0.now file.1) files.items ≡ files_of self.now) }
    {
        let mut files = Vec::new(alloc);
        match self {
            Request::Body { file } => files.push((file, BODY_LIMIT))?,
            Request::Show { assembly } => files.push((assembly, ASSEMBLY_LIMIT))?,
        }
        Ok(files)
    }
}

/// What the second word may be.
#[derive(Clone, Copy, Debug, PartialEq, Eq)]
pub enum Command {
    Body,
    Show,
}

impl Command {
    fn of_word(word: &str) -> Option<Command>
        ensures { MatchOption result
            ((command : Command) → word.now ≡ word_of command → ⊥)
            (λ command. word.now ≡ word_of command) }
    {
        match word {
            "body" => Some(Command::Body),
            "show" => Some(Command::Show),
            _ => None,
        }
    }

    fn word<'a>(self) -> &'a str
        ensures { result.now ≡ word_of self }
    {
        match self {
            Command::Body => "body",
            Command::Show => "show",
        }
    }

    /// What the usage calls the words behind the command.
    fn names<'a>(self) -> &'a [&'a str]
        ensures { map (λ name. name.now) result.now ≡ names_of self }
    {
        match self {
            Command::Body => &["FILE"],
            Command::Show => &["ASM"],
        }
    }

    fn request(self, alloc: Global, texts: &[&str]) -> Result<Request, NoMemory>
        requires { length texts.now ≡ length (names_of self) }
        ensures { IfOk result (λ request. (command_of request ≡ self)
            × (texts_of request ≡ map (λ text. text.now) texts.now)) }
    {
        match self {
            Command::Body => Ok(Request::Body {
                file: Text::of(alloc, texts[0])?,
            }),
            Command::Show => Ok(Request::Show {
                assembly: Text::of(alloc, texts[0])?,
            }),
        }
    }

    /// How `clap` reads the program's name and the words after the command.
    fn form<'a>(self, alloc: Global) -> Result<clap::Command<'a>, AllocError>
        ensures { IfOk result (λ form. app_of form ≡ form_of self) }
    {
        let mut form = clap::Command::new(alloc, self.word())
            .disable_help_flag(true)
            .disable_version_flag(true);
        for name in self.names() {
            form = with_text(alloc, form, name)?;
        }
        Ok(form)
    }

    /// The texts that stand behind the command, in the order of its names, where the words are in form. These are the words
    /// of the command line without the command.
    fn texts<'a>(
        self,
        alloc: Global,
        words: &'a [&'a str],
    ) -> Result<Option<Vec<&'a str>>, NoMemory>
        ensures { IfOk result (λ texts. MatchOption texts
            ((texts : List (List ℕ)) → AreMatched self (map (λ word. word.now) words.now) texts → ⊥)
            (λ texts. AreMatched self (map (λ word. word.now) words.now) (map (λ text. text.now) texts.items))) }
    {
        match self.form(alloc)?.try_get_matches_from(words) {
            Ok(matches) => values(alloc, &matches, self.names()),
            Err(e) if e.kind() == ErrorKind::OutOfMemory => Err(NoMemory),
            Err(_) => Ok(None),
        }
    }
}

// The form with one more text, which is required.
fn with_text<'a>(
    alloc: Global,
    form: clap::Command<'a>,
    name: &'a str,
) -> Result<clap::Command<'a>, AllocError>
    ensures { IfOk result (λ more. app_of more ≡ with_rule (app_of form.entry) (text_rule name.now)) }
{
    form.arg(Arg::new(alloc, name).required(true))
}

// The values of these names, where each has one.
fn values<'a>(
    alloc: Global,
    matches: &ArgMatches<'a>,
    names: &[&str],
) -> Result<Option<Vec<&'a str>>, NoMemory>
    ensures { IfOk result (λ values. MatchOption values
        ((texts : List (List ℕ)) → map (λ name. first_of name.now (rows_of (found_of matches.now))) names.now ≡ map Some texts → ⊥)
        (λ values. map (λ name. first_of name.now (rows_of (found_of matches.now))) names.now
        ≡ map Some (map (λ value. value.now) values.items))) }
{
    let mut values = Vec::new(alloc);
    for name in names {
        let Some(value) = matches.get_str(name) else {
            return Ok(None);
        };
        values.push(value)?;
    }
    Ok(Some(values))
}

/// What the words of a command line ask for, where they are in form.
pub(crate) fn asked(alloc: Global, words: &[Text]) -> Result<Option<Request>, NoMemory>
    ensures { IfOk result (λ asked. MatchOption asked
        ((request : Request) → AsksFor words.now request → ⊥)
        (AsksFor words.now)) }
{
    let [program, word, rest @ ..] = words else {
        return Ok(None);
    };
    let Some(command) = Command::of_word(word.as_str()) else {
        return Ok(None);
    };
    let words = texts_of(alloc, program, rest)?;
    match command.texts(alloc, words.as_slice())? {
        Some(texts) => Ok(Some(command.request(alloc, texts.as_slice())?)),
        None => Ok(None),
    }
}

fn texts_of<'a>(
    alloc: Global,
    program: &'a Text,
    rest: &'a [Text],
) -> Result<Vec<&'a str>, NoMemory>
    ensures { IfOk result (λ texts. map (λ text. text.now) texts.items ≡ program.now ∷ rest.now) }
{
    let mut texts = Vec::new(alloc);
    texts.push(program.as_str())?;
    for word in rest {
        texts.push(word.as_str())?;
    }
    Ok(texts)
}

#[cfg(test)]
mod tests {
    use super::*;
    use std::test::Fail;

    fn reads(
        alloc: Global,
        words: &[&str],
        due: Option<(Command, &str)>,
    ) -> Result<bool, NoMemory> {
        let mut texts = Vec::new(alloc);
        for word in words {
            texts.push(Text::of(alloc, word)?)?;
        }
        match (asked(alloc, texts.as_slice())?, due) {
            (Some(Request::Body { file }), Some((Command::Body, name))) => Ok(
                file.as_str() == name,
            ),
            (Some(Request::Show { assembly }), Some((Command::Show, name))) => {
                Ok(assembly.as_str() == name)
            }
            (None, None) => Ok(true),
            _ => Ok(false),
        }
    }

    #[test]
    fn words_in_form_ask_for_one_command_and_one_file(rt: HostRuntime) -> Result<(), Fail> {
        let alloc = rt.alloc();
        let body = |name| Some((Command::Body, name));
        assert!(rt; reads(alloc, &["ilspy", "body", "x"], body("x"))?);
        assert!(rt; reads(alloc, &["ilspy", "show", "x"], Some((Command::Show, "x")))?);
        assert!(rt; reads(alloc, &["", "body", ""], body(""))?);
        assert!(rt; reads(alloc, &["ilspy", "body", "-"], body("-"))?);
        assert!(rt; reads(alloc, &["ilspy", "body", "help"], body("help"))?);
        assert!(rt; reads(alloc, &["ilspy", "body", "--", "-x"], body("-x"))?);
        assert!(rt; reads(alloc, &["ilspy", "body", "--", "--"], body("--"))?);
        assert!(rt; reads(alloc, &["ilspy", "body", "x", "--"], body("x"))?);
        Ok(())
    }

    #[test]
    fn other_words_are_out_of_form(rt: HostRuntime) -> Result<(), Fail> {
        let alloc = rt.alloc();
        let no_words: [&str; 0] = [];
        assert!(rt; reads(alloc, &no_words, None)?);
        assert!(rt; reads(alloc, &["ilspy"], None)?);
        assert!(rt; reads(alloc, &["ilspy", "body"], None)?);
        assert!(rt; reads(alloc, &["ilspy", "Body", "x"], None)?);
        assert!(rt; reads(alloc, &["ilspy", "x", "body"], None)?);
        assert!(rt; reads(alloc, &["ilspy", "body", "x", "y"], None)?);
        assert!(rt; reads(alloc, &["ilspy", "body", "--"], None)?);
        assert!(rt; reads(alloc, &["ilspy", "body", "-x"], None)?);
        assert!(rt; reads(alloc, &["ilspy", "body", "-h"], None)?);
        assert!(rt; reads(alloc, &["ilspy", "show", "--help"], None)?);
        assert!(rt; reads(alloc, &["ilspy", "show", "--version"], None)?);
        Ok(())
    }
}
