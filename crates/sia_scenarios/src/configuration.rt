//! The configuration, key by key: what an absent key means, which values are read, and which key is refused.
//!
//! The ranges and the defaults are those of docs/formats.md.
use crate::call::{check, told};
use crate::ledger::{CONFIG, ledger};
use sia_config::{Config, read_config};
use std::alloc::Global;
use std::process::Abort;
use std::test::Fail;

/// The keys, in the order in which they are tried: each with its table.
const KEYS: [(&str, &str); 20] = [
    ("chain", "maturity"),
    ("chain", "sector_exp"),
    ("chain", "siafund"),
    ("host", "window"),
    ("host", "max_duration"),
    ("host", "margin"),
    ("host", "max_collateral"),
    ("host", "contract_price"),
    ("host", "base"),
    ("host", "access"),
    ("host", "storage"),
    ("host", "collateral"),
    ("host", "upload"),
    ("host", "download"),
    ("host", "journal_limit"),
    ("host", "slots"),
    ("host", "events"),
    ("renter", "fee"),
    ("renter", "collateral"),
    ("renter", "file_limit"),
];

/// Each key at the least value that it has.
const LEAST: &str =
    "[host]\nwindow = 1\nmax_duration = 1\nmargin = 1\nmax_collateral = \"0\"\ncontract_price = \"0\"\nbase = \"0\"\naccess = \"0\"\nstorage = \"0\"\ncollateral = \"0\"\nupload = \"0\"\ndownload = \"0\"\njournal_limit = 1024\nslots = 1\nevents = 16\n[renter]\nfee = \"0\"\ncollateral = \"0\"\nfile_limit = 1024\n[chain]\nmaturity = 1\nsector_exp = 0\n";

/// Each key at the greatest value that it has, but for the amounts, which differ from one another.
const GREATEST: &str =
    "[host]\nwindow = 1000000\nmax_duration = 2000000\nmargin = 1000\nmax_collateral = \"340282366920938463463374607431768211455\"\ncontract_price = \"1\"\nbase = \"2\"\naccess = \"3\"\nstorage = \"4\"\ncollateral = \"5\"\nupload = \"6\"\ndownload = \"7\"\njournal_limit = 68719476736\nslots = 1048576\nevents = 16777216\n[renter]\nfee = \"8\"\ncollateral = \"9\"\nfile_limit = 4294967296\n[chain]\nmaturity = 10000\nsector_exp = 16\n";

/// What a configuration says, in the order of the keys, with the size of a sector in place of its exponent and the count of
/// outputs in place of the siafunds.
fn numbers(config: &Config) -> [u128; 20] {
    let host = &config.host;
    let prices = &host.settings.prices;
    [
        u128::from(host.params.maturity),
        u128::from(host.settings.sector),
        host.params.funds.len() as u128,
        u128::from(host.settings.window),
        u128::from(host.settings.max_duration),
        u128::from(host.margin),
        host.settings.max_collateral,
        prices.contract_price,
        prices.base,
        prices.access,
        prices.storage,
        prices.collateral,
        prices.upload,
        prices.download,
        u128::from(host.journal_limit),
        u128::from(host.slots),
        u128::from(host.events),
        config.fee,
        config.collateral,
        u128::from(config.file_limit),
    ]
}

#[test]
fn each_key_is_read_and_an_absent_one_has_its_default(rt: HostRuntime) -> Result<(), Fail> {
    let cases: [(&str, &str, [u128; 20]); 3] = [
        (
            "absent keys",
            "",
            [
                144,
                4_194_304,
                1,
                144,
                25_920,
                12,
                1_000_000_000_000_000_000_000_000_000,
                150_000_000_000_000_000_000_000,
                100_000_000_000_000_000,
                100_000_000_000_000_000,
                25_000_000_000,
                50_000_000_000,
                1_000_000_000_000,
                25_000_000_000_000,
                1_073_741_824,
                4_096,
                16_777_216,
                10_000_000_000_000_000_000_000,
                0,
                67_108_864,
            ],
        ),
        (
            "least values",
            LEAST,
            [
                1, 64, 1, 1, 1, 1, 0, 0, 0, 0, 0, 0, 0, 0, 1_024, 1, 16, 0, 0, 1_024,
            ],
        ),
        (
            "greatest values",
            GREATEST,
            [
                10_000,
                4_194_304,
                1,
                1_000_000,
                2_000_000,
                1_000,
                340_282_366_920_938_463_463_374_607_431_768_211_455,
                1,
                2,
                3,
                4,
                5,
                6,
                7,
                68_719_476_736,
                1_048_576,
                16_777_216,
                8,
                9,
                4_294_967_296,
            ],
        ),
    ];
    for (name, keys, wanted) in cases {
        let text = [keys, CONFIG].concat(rt.alloc())?;
        let config = read_config(rt.alloc(), text.as_str().as_bytes())?;
        assert_eq!(rt; numbers(&config).as_slice(), wanted.as_slice(), "{name}");
        assert_eq!(rt; config.host.settings.height, 0, "{name}");
        assert_eq!(rt;
            config.host.settings.host_key.as_slice(),
            [0; 32].as_slice(),
            "{name}"
        );
        assert_eq!(rt;
            config.host.settings.address.as_slice(),
            [0; 32].as_slice(),
            "{name}"
        );
    }
    Ok(())
}

/// The configuration is refused, and this is told of it.
fn check_refused(
    rt: &(impl Alloc<A = Global> + Abort),
    name: &str,
    text: &str,
    case: &str,
) -> Result<(), Fail> {
    let err = format!(in rt.alloc(); "sia-v1: refused config {case}\n")?;
    check(
        rt,
        name,
        &ledger(text.as_bytes(), &[]),
        &told(2, err.as_str()),
    )
}

/// Each of these values refuses the key.
fn check_each_refused(
    rt: &(impl Alloc<A = Global> + Abort),
    table: &str,
    key: &str,
    values: &[&str],
) -> Result<(), Fail> {
    let case = [table, ".", key].concat(rt.alloc())?;
    for value in values {
        let text = format!(in rt.alloc(); "[{table}]\n{key} = {value}\n{CONFIG}")?;
        check_refused(rt, value, text.as_str(), case.as_str())?;
    }
    Ok(())
}

#[test]
fn a_value_out_of_range_or_of_another_type_is_refused_by_its_key(
    rt: HostRuntime,
) -> Result<(), Fail> {
    let amounts: [&str; 8] = [
        "\"340282366920938463463374607431768211456\"",
        "\"01\"",
        "\"00\"",
        "\"+1\"",
        "\"-1\"",
        "\"1 \"",
        "\"\"",
        "1",
    ];
    let keys: [(&str, &str, &[&str]); 19] = [
        ("chain", "maturity", &["0", "10001", "-1", "\"1\""]),
        ("chain", "sector_exp", &["-1", "17", "16.0"]),
        ("host", "window", &["0", "1000001", "true"]),
        ("host", "max_duration", &["0", "2000001", "[1]"]),
        ("host", "margin", &["0", "1001", "\"12\""]),
        ("host", "max_collateral", &amounts),
        ("host", "contract_price", &amounts),
        ("host", "base", &amounts),
        ("host", "access", &amounts),
        ("host", "storage", &amounts),
        ("host", "collateral", &amounts),
        ("host", "upload", &amounts),
        ("host", "download", &amounts),
        ("host", "journal_limit", &["1023", "68719476737", "1e9"]),
        ("host", "slots", &["0", "1048577", "1979-05-27"]),
        ("host", "events", &["15", "16777217", "\"16\""]),
        ("renter", "fee", &amounts),
        ("renter", "collateral", &amounts),
        ("renter", "file_limit", &["1023", "4294967297", "{}"]),
    ];
    for (table, key, values) in keys {
        check_each_refused(&rt, table, key, values)?;
    }
    Ok(())
}

#[test]
fn siafunds_are_refused_where_they_are_not_the_whole_issue(rt: HostRuntime) -> Result<(), Fail> {
    let zero = "0000000000000000000000000000000000000000000000000000000000000000";
    let cases = [
        ("none", "chain.maturity = 1\n"),
        ("a chain that is no table has no keys", "chain = 1\n"),
        ("no table", "chain.siafund = [1]\n"),
        ("no array", "chain.siafund = 10000\n"),
        ("no outputs", "chain.siafund = []\n"),
        ("no address", "[[chain.siafund]]\nvalue = 10000\n"),
        (
            "a short address",
            "[[chain.siafund]]\nto = \"00\"\nvalue = 10000\n",
        ),
    ];
    for (name, text) in cases {
        check_refused(&rt, name, text, "chain.siafund")?;
    }
    let values = ["0", "9999", "10001", "\"10000\""];
    for value in values {
        let text = format!(in rt.alloc(); "[[chain.siafund]]\nto = \"{zero}\"\nvalue = {value}\n")?;
        check_refused(&rt, value, text.as_str(), "chain.siafund")?;
    }
    let more = [
        CONFIG,
        "[[chain.siafund]]\nto = \"FfFfFfFfFfFfFfFfFfFfFfFfFfFfFfFfFfFfFfFfFfFfFfFfFfFfFfFfFfFfFfFf\"\nvalue = 1\n",
    ]
    .concat(rt.alloc())?;
    check_refused(&rt, "a siafund too many", more.as_str(), "chain.siafund")
}

/// A document in which each key from this place on holds a value that no key has. The tables stand in another order.
fn spoiled(alloc: Global, first: usize) -> Result<String, Fail> {
    let mut text = String::new(alloc);
    for wanted in ["renter", "host", "chain"] {
        write!(text, "[{wanted}]\n")?;
        for (table, key) in KEYS.iter().skip(first) {
            if *table == wanted {
                write!(text, "{key} = false\n")?;
            }
        }
    }
    if first > 2 {
        text.push_str(CONFIG)?;
    }
    Ok(text)
}

#[test]
fn the_first_key_that_is_refused_is_told(rt: HostRuntime) -> Result<(), Fail> {
    check_refused(&rt, "no document", "chain", "text")?;
    for (place, (table, key)) in KEYS.iter().enumerate() {
        let case = [*table, ".", *key].concat(rt.alloc())?;
        let text = spoiled(rt.alloc(), place)?;
        check_refused(&rt, key, text.as_str(), case.as_str())?;
    }
    Ok(())
}
