// Refusals: why an operation answers nothing else, and the number of each.
#![tactic(auto)]

ghost use Rattle.std.specs.Prelude.{◌≡◌};
ghost use Rattle.refusals.specs.Refusal.{number_of};

// Why an operation refuses what it is given.
#[derive(Clone, Copy, Debug, PartialEq, Eq)]
pub enum Refusal {
    ShortTable,
    LongFile,
    LongLine,
    StrangeByte,
    NoForm,
    LongName,
    DeepFormula,
    ManyNames,
    ManyRules,
    ManyQueries,
    NoQuery,
    ManySettings,
    Unsound,
    NoSetting,
    ShortWork,
    HighPrice,
    SecondCost,
    LongText,
    ShortOutput,
    ManyLiterals,
    SecondEdition,
    NoLoad,
    ShortLoadOutput,
}

impl From<Refusal> for u32 {
    ghost from_gives = { λ r n. n ≡ number_of r };

    fn from(refusal: Refusal) -> u32 {
        match refusal {
            Refusal::ShortTable => 1,
            Refusal::LongFile => 2,
            Refusal::LongLine => 3,
            Refusal::StrangeByte => 4,
            Refusal::NoForm => 5,
            Refusal::LongName => 6,
            Refusal::DeepFormula => 7,
            Refusal::ManyNames => 8,
            Refusal::ManyRules => 9,
            Refusal::ManyQueries => 10,
            Refusal::NoQuery => 11,
            Refusal::ManySettings => 12,
            Refusal::Unsound => 13,
            Refusal::NoSetting => 14,
            Refusal::ShortWork => 15,
            Refusal::HighPrice => 16,
            Refusal::SecondCost => 17,
            Refusal::LongText => 18,
            Refusal::ShortOutput => 19,
            Refusal::ManyLiterals => 20,
            Refusal::SecondEdition => 21,
            Refusal::NoLoad => 22,
            Refusal::ShortLoadOutput => 23,
        }
    }
}
