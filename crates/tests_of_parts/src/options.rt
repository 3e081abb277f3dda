// Words against what they ask for.
use admission::{Lateness, Policy};
use command_line::{CommandLine, Keeping, Mode, read_words};

// What the query `q` alone asks for.
const PLAIN: CommandLine<'static> = CommandLine {
    query: "q",
    mode: Mode::Run,
    batch: 1024,
    workers: 1,
    header: false,
    policy: Policy {
        lateness: 0,
        late: Lateness::Refuse,
        period: 0,
    },
    number: 0,
    events: 1000,
    keeping: None,
};

// What the query `q` with the checkpoint `state` asks for.
const KEPT: Keeping<'static> = Keeping {
    checkpoint: "state",
    every: 1,
    input: "-",
    output: "-",
};

// Words, with `|` between each two, with what they ask for, or nothing where they are refused.
static WORDS: [(&str, Option<CommandLine<'static>>); 60] = [
    ("tempo|--query|q", Some(PLAIN)),
    ("tempo|--query|", Some(CommandLine { query: "", ..PLAIN })),
    ("tempo|--query=", Some(CommandLine { query: "", ..PLAIN })),
    (
        "tempo|--query=-q",
        Some(CommandLine {
            query: "-q",
            ..PLAIN
        }),
    ),
    (
        "tempo|--query|-",
        Some(CommandLine {
            query: "-",
            ..PLAIN
        }),
    ),
    ("tempo|--query|q|--", Some(PLAIN)),
    (
        "tempo|--query|a b = c",
        Some(CommandLine {
            query: "a b = c",
            ..PLAIN
        }),
    ),
    (
        "tempo|--query|q|--batch=+7",
        Some(CommandLine { batch: 7, ..PLAIN }),
    ),
    (
        "tempo|--batch|007|--query|q",
        Some(CommandLine { batch: 7, ..PLAIN }),
    ),
    (
        "tempo|--query|q|--batch|1",
        Some(CommandLine { batch: 1, ..PLAIN }),
    ),
    (
        "tempo|--query|q|--batch|8192",
        Some(CommandLine {
            batch: 8192,
            ..PLAIN
        }),
    ),
    ("tempo|--query|q|--mode|run", Some(PLAIN)),
    (
        "tempo|--query|q|--mode|freeze",
        Some(CommandLine {
            mode: Mode::Freeze,
            ..PLAIN
        }),
    ),
    (
        "tempo|--query|q|--mode=resume",
        Some(CommandLine {
            mode: Mode::Resume,
            ..PLAIN
        }),
    ),
    (
        "tempo|--header|--query=q|--mode|explain",
        Some(CommandLine {
            mode: Mode::Explain,
            header: true,
            ..PLAIN
        }),
    ),
    (
        "tempo|--mode|cut|--query|q",
        Some(CommandLine {
            mode: Mode::Cut,
            ..PLAIN
        }),
    ),
    (
        "tempo|--query|q|--late|adjust|--lateness|5|--punctuate=1152921504606846975",
        Some(CommandLine {
            policy: Policy {
                lateness: 5,
                late: Lateness::Adjust,
                period: 1152921504606846975,
            },
            ..PLAIN
        }),
    ),
    (
        "tempo|--query|q|--mode=sample|--number|4294967295|--events|+1000000",
        Some(CommandLine {
            mode: Mode::Sample,
            number: 4294967295,
            events: 1000000,
            ..PLAIN
        }),
    ),
    (
        "tempo|--query|q|--workers|16",
        Some(CommandLine {
            workers: 16,
            ..PLAIN
        }),
    ),
    (
        "tempo|--query|q|--checkpoint|state",
        Some(CommandLine {
            keeping: Some(KEPT),
            ..PLAIN
        }),
    ),
    (
        "tempo|--checkpoint=state|--every=60|--query|q|--mode|run|--input|in.csv|--output=-o",
        Some(CommandLine {
            keeping: Some(Keeping {
                every: 60,
                input: "in.csv",
                output: "-o",
                ..KEPT
            }),
            ..PLAIN
        }),
    ),
    (
        "tempo|--query|q|--checkpoint|state|--every|1152921504606846975|--input|-",
        Some(CommandLine {
            keeping: Some(Keeping {
                every: 1152921504606846975,
                ..KEPT
            }),
            ..PLAIN
        }),
    ),
    ("--query|--query|q", Some(PLAIN)),
    ("tempo", None),
    ("tempo|--query", None),
    ("tempo|--query|-q", None),
    ("tempo|--query|q|--batch|0", None),
    ("tempo|--query|q|--batch|8193", None),
    ("tempo|--query|q|--batch|x", None),
    ("tempo|--query|q|--batch|", None),
    ("tempo|--query|q|--batch|18446744073709551617", None),
    ("tempo|--query|q|--workers|0", None),
    ("tempo|--query|q|--workers|17", None),
    ("tempo|--query|q|--number|4294967296", None),
    ("tempo|--query|q|--events|0", None),
    ("tempo|--query|q|--events|1000001", None),
    ("tempo|--query|q|--mode|Run", None),
    ("tempo|--query|q|--mode|keep|--checkpoint|state", None),
    ("tempo|--query|q|--mode|explain|--checkpoint|state", None),
    ("tempo|--query|q|--checkpoint|", None),
    ("tempo|--query|q|--checkpoint|a|--checkpoint|b", None),
    ("tempo|--query|q|--checkpoint|state|--every|0", None),
    ("tempo|--query|q|--checkpoint|state|--input=", None),
    ("tempo|--query|q|--every|1", None),
    ("tempo|--query|q|--input|in.csv", None),
    ("tempo|--query|q|--output|-", None),
    ("tempo|--query|q|--late|late", None),
    ("tempo|--query|q|--lateness|1152921504606846976", None),
    ("tempo|--query|q|--punctuate|-1", None),
    ("tempo|--query|q|--header=true", None),
    ("tempo|--query|q|--header|--header", None),
    ("tempo|--query|q|--query|q", None),
    ("tempo|--query|q|--help", None),
    ("tempo|--query|q|-h", None),
    ("tempo|--query|q|--version", None),
    ("tempo|--query|q|--quer|q", None),
    ("tempo|--query|q|more", None),
    ("tempo|--query|q|--|more", None),
    ("tempo|--header", None),
    ("tempo|--mode|explain|--batch|7", None),
];

#[test]
fn words_ask_for_their_command(rt: HostRuntime) {
    for &(text, wanted) in WORDS.iter() {
        let Ok(words) = text.split('|').collect::<Vec<&str>>(rt.alloc()) else {
            panic!(rt; "no memory");
        };
        assert_eq!(rt; read_words(rt.alloc(), &words).ok(), wanted, "at {text}");
    }
}
