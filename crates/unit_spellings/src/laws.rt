//! What holds of every text.
ghost use Rattle.unit_spellings.specs.Spellings.{ReaderIsExact, ReaderRefusesOthers, OneMeaning};
ghost use Rattle.unit_spellings.specs.DateTexts.{DateReaderIsExact, DateReaderRefusesOthers, OnePeriod};

/// A text is read as units exactly where it is spelled from parts that say them, and it says one thing.
pub fn units_are_spelled()
    ensures exact { ReaderIsExact }
    ensures others { ReaderRefusesOthers }
    ensures one { OneMeaning }
{}

/// A text is read as a date exactly where it is spelled from parts that stand for its times, and it stands for one period.
pub fn dates_are_spelled()
    ensures exact { DateReaderIsExact }
    ensures others { DateReaderRefusesOthers }
    ensures one { OnePeriod }
{}
