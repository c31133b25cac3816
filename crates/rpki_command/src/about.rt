//! The texts about the command.
ghost use Rattle.std.specs.Prelude.{◌≡◌, IfSome, MatchOption};
ghost use Rattle.rpki_text.specs.CommandLines.Views.{word_octets};
ghost use Rattle.rpki_command.specs.AboutTexts.{about_text, topic_name, help_text, hint_text, topic_named, topic_of};
ghost use Rattle.rpki_answers.specs.Outcomes.{AsksOfFiles};

use rpki_text::command_line::Task;

/// What words are about: one of the commands, or all of them.
#[derive(Clone, Copy)]
pub enum Topic {
    Show,
    Validate,
    Tree,
    Prepare,
    Complete,
    All,
}

const USAGE: &str = "usage: rpki COMMAND [OPTION].. FILE..
  show       prints what certificates, CRLs and TALs contain
  validate   validates a path of certificates, from the trust anchor down
  tree       validates all certificates among files and directories
  prepare    writes what is to be signed of a certificate or a CRL
  complete   writes the certificate or CRL, from that and its signature
  help       prints this, or what 'rpki help COMMAND' asks for
  --version  prints the version
'rpki COMMAND --help' prints the options of a command and an example.
";

const SHOW: &str = "usage: rpki show [OPTION].. FILE..
Prints what certificates, CRLs, TALs and to-be-signed parts contain. It validates nothing.
FILE is DER or PEM; - is standard input; after -- each word is a FILE.
  --all                 prints all entries of a CRL, not only the first five
  --at TIME             the time for what expires when; if left out, the clock's
  --lenient             accepts names in UTF8Strings, and comments of a TAL that aren't UTF-8
  --max-size BYTES      the most bytes of a file (67108864)
  -o, --output FORMAT   text, json, or jsonl: one value on each line
  -j, --json            the same as -o json
  -q, --quiet           prints nothing: only the exit status
TIME is YYYY-MM-DD, YYYY-MM-DDTHH:MM:SSZ or YYYYMMDDHHMMSS.
Exit status: 0 all are shown, 1 a file is none of these, 2 wrong usage, 3 a file can't be read.
Example: rpki show anchor.cer
";

const VALIDATE: &str =
    "usage: rpki validate --tal FILE.. --crl FILE.. [OPTION].. ANCHOR [CA].. [LAST]
       rpki validate --tal FILE.. --in DIRECTORY.. [OPTION].. FILE
Validates a path from the trust anchor down, or searches directories for one to FILE.
  --tal FILE            requires that the trust anchor has this TAL's key
  --trust-first         in place of --tal: trusts ANCHOR as it is given
  --crl FILE            checks revocation, with this CRL and the other ones given
  --no-crl              in place of --crl: checks no revocation
  --in DIRECTORY        searches certificates and CRLs in it and below it
  --depth NUMBER        of that search: the most certificates below the trust anchor (32)
  --steps NUMBER        of that search: the most steps below each trust anchor (10,000,000)
  --no-names            skips name chaining, and the issuer names of CRLs
  --at TIME             the validation time; if left out, the clock's
  --lenient, --max-size BYTES, -o FORMAT, -j, -q: as 'rpki show --help' says
TIME is YYYY-MM-DD, YYYY-MM-DDTHH:MM:SSZ or YYYYMMDDHHMMSS.
Exit status: 0 accepted, 1 rejected, 2 wrong usage, 3 a file can't be read.
Example: rpki validate --tal anchor.tal --crl anchor.crl anchor.cer first.cer
";

const TREE: &str = "usage: rpki tree --tal FILE.. [OPTION].. FILE|DIRECTORY..
Validates every certificate among the files, in any order, with the CRLs among them.
Of a DIRECTORY it reads the files in it and below it that end in .cer or .crl.
  --tal FILE            a trust anchor is the certificate that has this TAL's key; repeatable
  --only rejected       prints only the certificates that aren't accepted
  --strict-exit         ends with 1 also if a file damages the cache, or only trust anchors are there
  --depth NUMBER        the most certificates below the trust anchor on a path (32)
  --steps NUMBER        the most steps below each trust anchor (10,000,000)
  --no-names            skips name chaining, and the issuer names of CRLs
  --at TIME             the validation time; if left out, the clock's
  --lenient, --max-size BYTES, -o FORMAT, -j, -q: as 'rpki show --help' says
TIME is YYYY-MM-DD, YYYY-MM-DDTHH:MM:SSZ or YYYYMMDDHHMMSS.
Exit status: 0 all are accepted, 1 one isn't, 2 wrong usage, 3 a file can't be read.
Example: rpki tree --tal anchor.tal --only rejected repository/
";

const PREPARE: &str = "usage: rpki prepare KIND [--issuer FILE].. --key FILE FIELD.. [OPTION]..
       rpki prepare list --issuer FILE.. --next-update TIME [OPTION]..
Writes what is to be signed (TBSCertificate, TBSCertList), if what becomes of it is valid.
  KIND: ca, ee, detached, router or anchor
  --issuer FILE         the issuer's path, from the trust anchor down; an anchor has none
  --key FILE            the subject's public key (SubjectPublicKeyInfo)
  --crl FILE            checks revocation on the issuer's path, with this and the other CRLs given
  FIELD: --serial HEX, --from TIME, --until TIME, --ipv4 BLOCK, --ipv6 BLOCK, --as NUMBERS,
    --repository URI, --manifest URI, --notify URI, --object URI, --issuer-uri URI, --crl-uri URI,
    or --trim (RFC 8360)
  of a list: --previous FILE, --number HEX, --revoke FILE, --serial HEX (of what is revoked)
  --at TIME             the validation time; if left out, the clock's
  --lenient             accepts names in UTF8Strings
  --out FILE, --force   the file to write, and that it may replace one; if left out, standard output
TIME is YYYY-MM-DD, YYYY-MM-DDTHH:MM:SSZ or YYYYMMDDHHMMSS.
Exit status: 0 written, 1 refused, 2 wrong usage or value, 3 a file can't be read or written.
Example: rpki prepare list --issuer anchor.cer --next-update 2027-01-01 --out new.tbs
";

const COMPLETE: &str = "usage: rpki complete [--issuer FILE].. [OPTION].. PREPARED SIGNATURE
Writes the certificate or CRL that a prepared file becomes by its signature, if it is valid.
PREPARED is what 'rpki prepare' wrote, and SIGNATURE the bytes of the signature over it.
  --issuer FILE         the issuer's path, from the trust anchor down; an anchor has none
  --crl FILE            checks revocation, with this and the other CRLs given
  --pem                 writes PEM, not DER
  --at TIME             the validation time; if left out, the clock's
  --lenient             accepts names in UTF8Strings
  --out FILE, --force   the file to write, and that it may replace one; if left out, standard output
TIME is YYYY-MM-DD, YYYY-MM-DDTHH:MM:SSZ or YYYYMMDDHHMMSS.
Exit status: 0 written, 1 refused, 2 wrong usage or value, 3 a file can't be read or written.
Example: rpki complete --issuer anchor.cer --out new.crl new.tbs new.sig
";

const VERSION: &str = "rpki (Gonxebhula) 0.2.0\nlogic: dac8208d650f15bf\n";

impl Topic {
    /// Returns what the command is called, with the program's name.
    pub fn called(self) -> &'static str
        ensures { result.now ≡ topic_name self }
    {
        match self {
            Topic::Show => "rpki show",
            Topic::Validate => "rpki validate",
            Topic::Tree => "rpki tree",
            Topic::Prepare => "rpki prepare",
            Topic::Complete => "rpki complete",
            Topic::All => "rpki",
        }
    }

    /// Returns the line that says where its help is.
    pub fn hint(self) -> &'static str
        ensures { result.now ≡ hint_text self }
    {
        match self {
            Topic::Show => "Try 'rpki show --help'.\n",
            Topic::Validate => "Try 'rpki validate --help'.\n",
            Topic::Tree => "Try 'rpki tree --help'.\n",
            Topic::Prepare => "Try 'rpki prepare --help'.\n",
            Topic::Complete => "Try 'rpki complete --help'.\n",
            Topic::All => "Try 'rpki --help'.\n",
        }
    }

    /// Returns the text that says how it is used.
    pub fn help(self) -> &'static str
        ensures { result.now ≡ help_text self }
    {
        match self {
            Topic::Show => SHOW,
            Topic::Validate => VALIDATE,
            Topic::Tree => TREE,
            Topic::Prepare => PREPARE,
            Topic::Complete => COMPLETE,
            Topic::All => USAGE,
        }
    }
}

// The command that the word names.
fn topic_named(word: &[u8]) -> Topic
    ensures { result ≡ topic_named word.now }
{
    if word == b"show".as_slice() {
        Topic::Show
    } else if word == b"validate".as_slice() {
        Topic::Validate
    } else if word == b"tree".as_slice() {
        Topic::Tree
    } else if word == b"prepare".as_slice() {
        Topic::Prepare
    } else if word == b"complete".as_slice() {
        Topic::Complete
    } else {
        Topic::All
    }
}

/// Returns what the words behind the program's name are about: what the first one names, or the
/// second one behind `help`.
pub fn topic_of(words: &[Vec<u8>]) -> Topic
    ensures { result ≡ topic_of (word_octets words.now) }
{
    let Some((first, rest)) = words.split_first() else {
        return Topic::All;
    };
    let first = first.as_slice();
    if first != b"help".as_slice() {
        return topic_named(first);
    }
    match rest.split_first() {
        Some((second, _)) => topic_named(second.as_slice()),
        None => Topic::All,
    }
}

/// Returns the text about the command, if the task is to print one and no file is used.
pub fn text_about(task: Task, topic: Topic) -> Option<&'static str>
    ensures files { MatchOption result (AsksOfFiles task) (λ _. AsksOfFiles task → ⊥) }
    ensures text { IfSome result (λ text. text.now ≡ about_text task topic) }
{
    match task {
        Task::Help => Some(topic.help()),
        Task::Version => Some(VERSION),
        Task::Show | Task::Validate | Task::Tree => None,
    }
}
