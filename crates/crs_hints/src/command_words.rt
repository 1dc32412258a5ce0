// Which word of the command line is wrong, where the words are no command.
use crs_base::number;

/// A word that is wrong, or after which one is missing.
#[derive(Clone, Copy, Debug)]
pub struct WordHint<'a> {
    pub word: &'a str,
    /// What is said behind the word, without a full stop.
    pub sentence: &'static str,
}

/// What a command may be asked for.
struct Form {
    name: &'static str,
    flags: &'static [&'static str],
    has_tally: bool,
    /// How many names of files or numbers it takes.
    least: usize,
    most: usize,
    /// What is said of an option that it hasn't, and of too few and too many names.
    no_option: &'static str,
    too_few: &'static str,
    too_many: &'static str,
}

const KINDS: &str =
    "wants KINDS: one or several of count, span, longest and fewer, with commas between";

static FORMS: [Form; 6] = [
    Form {
        name: "run",
        flags: &["--focus", "--summary", "--cite"],
        has_tally: true,
        least: 2,
        most: 2,
        no_option: "is no option of run, which has --focus, --summary, --cite and --tally KINDS",
        too_few: "wants two names of files: MODELS LOG",
        too_many: "is one name too many: run takes MODELS LOG, and feeds takes several logs",
    },
    Form {
        name: "model",
        flags: &["--minimal"],
        has_tally: false,
        least: 1,
        most: 1,
        no_option: "is no option of model, which has --minimal",
        too_few: "wants the name of a file: MODELS",
        too_many: "is one name too many: model takes MODELS alone",
    },
    Form {
        name: "drill",
        flags: &["--focus"],
        has_tally: false,
        least: 2,
        most: 2,
        no_option: "is no option of drill, which has --focus",
        too_few: "wants two numbers: SEED N",
        too_many: "is one number too many: drill takes SEED N",
    },
    Form {
        name: "import",
        flags: &[],
        has_tally: false,
        least: 1,
        most: 1,
        no_option: "is no option of import, which has none",
        too_few: "wants the name of a file: CSV",
        too_many: "is one name too many: import takes one CSV",
    },
    Form {
        name: "audit",
        flags: &[],
        has_tally: false,
        least: 3,
        most: 3,
        no_option: "is no option of audit, which has none",
        too_few: "wants three names of files: MODELS LOG OUTPUT",
        too_many: "is one name too many: audit takes MODELS LOG OUTPUT",
    },
    Form {
        name: "feeds",
        flags: &["--focus"],
        has_tally: false,
        least: 2,
        most: 9,
        no_option: "is no option of feeds, which has --focus",
        too_few: "wants the names of the models and of one to eight logs: MODELS LOG..",
        too_many: "is one log too many: feeds takes at most eight",
    },
];

/// What was met of the words so far.
#[derive(Clone, Copy)]
struct Met {
    names: usize,
    /// Whether `--` was met, behind which all are names.
    is_ended: bool,
    /// Whether the word before wants KINDS.
    wants_kinds: bool,
}

/// The form of a command.
fn form_of(name: &str) -> Option<&'static Form> {
    for form in &FORMS {
        if form.name == name {
            return Some(form);
        }
    }
    None
}

/// Whether a word is an option.
fn is_option(word: &str) -> bool {
    word.len() > 1 && word.starts_with('-')
}

/// Whether the words ask for help, which is the usage text.
fn is_help(word: &str) -> bool {
    word == "help" || word == "--help" || word == "-h" || word == "--version" || word == "-V"
}

/// Whether a word is a kind of listener.
fn is_kind(word: &str) -> bool {
    word == "count" || word == "span" || word == "longest" || word == "fewer"
}

/// Whether a word stands among these.
fn stands_in(words: &[String], word: &str) -> bool {
    words.iter().any(|other| other.as_str() == word)
}

/// What is wrong with the kinds of a tally.
fn kinds_hint<'a>(value: &'a str) -> Option<WordHint<'a>> {
    for kind in value.split(',') {
        if !is_kind(kind) {
            return Some(WordHint {
                word: kind,
                sentence: "is no kind of tally: there are count, span, longest and fewer",
            });
        }
        if value.split(',').filter(|other| *other == kind).count() > 1 {
            return Some(WordHint {
                word: kind,
                sentence: "stands twice among the kinds of the tally",
            });
        }
    }
    None
}

/// What is wrong with an option, given the words in front of it.
fn option_hint<'a>(form: &'static Form, before: &[String], word: &'a str) -> Option<WordHint<'a>> {
    if let Some(value) = word.strip_prefix("--tally=")
        && form.has_tally
    {
        return kinds_hint(value);
    }
    let is_known = form.flags.iter().any(|flag| *flag == word)
        || (form.has_tally && word == "--tally");
    if !is_known {
        return Some(WordHint {
            word,
            sentence: form.no_option,
        });
    }
    if stands_in(before, word) {
        return Some(WordHint {
            word,
            sentence: "stands there twice",
        });
    }
    None
}

/// What is wrong with a name, given how many stand in front of it.
fn name_hint<'a>(form: &'static Form, names: usize, word: &'a str) -> Option<WordHint<'a>> {
    if names >= form.most {
        return Some(WordHint {
            word,
            sentence: form.too_many,
        });
    }
    if form.name == "drill" {
        return drill_hint(names, word);
    }
    None
}

/// Whether a word is a number between these, both included.
fn is_within(word: &str, low: u64, high: u64) -> bool {
    match number(word.as_bytes()) {
        Some(n) => low <= n && n <= high,
        None => false,
    }
}

/// What is wrong with a number of a drill.
fn drill_hint<'a>(names: usize, word: &'a str) -> Option<WordHint<'a>> {
    let sentence = if names == 0 {
        if is_within(word, 1, 2147483646) {
            return None;
        }
        "is no SEED: it is a number from 1 to 2147483646"
    } else {
        if is_within(word, 0, 1000000) {
            return None;
        }
        "is no N: it is a number of lines from 0 to 1000000"
    };
    Some(WordHint { word, sentence })
}

/// Whether a word is a name of a file or a number, and no option.
fn is_name(met: Met, word: &str) -> bool {
    met.is_ended || !is_option(word)
}

/// What is wrong with the next word.
fn next_hint<'a>(
    form: &'static Form,
    met: Met,
    before: &'a [String],
    word: &'a str,
) -> Option<WordHint<'a>> {
    if met.wants_kinds {
        if is_option(word) {
            return Some(WordHint {
                word: "--tally",
                sentence: KINDS,
            });
        }
        return kinds_hint(word);
    }
    if is_name(met, word) {
        return name_hint(form, met.names, word);
    }
    if word == "--" {
        return None;
    }
    option_hint(form, before, word)
}

/// What was met with one word more.
fn with_word(met: Met, word: &str) -> Met {
    if met.wants_kinds {
        return Met {
            wants_kinds: false,
            ..met
        };
    }
    if is_name(met, word) {
        return Met {
            names: met.names.saturating_add(1),
            ..met
        };
    }
    Met {
        is_ended: word == "--",
        wants_kinds: word == "--tally",
        ..met
    }
}

/// What is wrong with the words behind a command's name.
fn words_hint<'a>(form: &'static Form, name: &'a str, words: &'a [String]) -> Option<WordHint<'a>> {
    let mut met = Met {
        names: 0,
        is_ended: false,
        wants_kinds: false,
    };
    for (place, word) in words.iter().enumerate() {
        let before = words.get(..place).unwrap_or(words);
        let hint = next_hint(form, met, before, word.as_str());
        if hint.is_some() {
            return hint;
        }
        met = with_word(met, word.as_str());
    }
    if met.wants_kinds {
        return Some(WordHint {
            word: "--tally",
            sentence: KINDS,
        });
    }
    if met.names < form.least {
        return Some(WordHint {
            word: name,
            sentence: form.too_few,
        });
    }
    None
}

/// The first word behind the program's name that is wrong, where they are no command. None where
/// there are no words, or where they ask for help.
pub fn command_hint<'a>(words: &'a [String]) -> Option<WordHint<'a>> {
    let (name, rest) = words.split_first()?;
    let word = name.as_str();
    if is_help(word) {
        return None;
    }
    match form_of(word) {
        Some(form) => words_hint(form, word, rest),
        None => Some(WordHint {
            word,
            sentence: "is no command: there are run, model, drill, import, feeds and audit",
        }),
    }
}
