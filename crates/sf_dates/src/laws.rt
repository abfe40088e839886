//! Laws of days and moments: each has an empty body, and its contract is the law.
ghost use Rattle.std.specs.Prelude.{◌≡◌, ℕ, List, Some, length};
ghost use Rattle.sf_dates.specs.Calendar.{IsDate, IsDateTime};
ghost use Rattle.sf_dates.specs.Texts.{date_spelled, date_text, datetime_spelled, datetime_text};
ghost use Rattle.sf_dates.specs.declared.day.Day.{Day};
ghost use Rattle.sf_dates.specs.declared.moment.Moment.{Moment};

/// The text of a day is read as that day.
pub fn date_written_is_read()
    ensures { (date : Day) → IsDate date → date_spelled (date_text date) ≡ Some date }
{}

/// What a text spells is a day that there is, and the text is the text of that day.
pub fn date_read_is_written()
    ensures { (text : List ℕ) (date : Day) → date_spelled text ≡ Some date → IsDate date × (date_text date ≡ text) }
{}

/// The text of a moment is read as that moment.
pub fn datetime_written_is_read()
    ensures { (datetime : Moment) → IsDateTime datetime → datetime_spelled (datetime_text datetime) ≡ Some datetime }
{}

/// What a text spells is a moment that there is, and a text of 24 bytes is the text of that moment.
pub fn datetime_read_is_written()
    ensures { (text : List ℕ) (datetime : Moment) → datetime_spelled text ≡ Some datetime
        → IsDateTime datetime × (length text ≡ 24 → datetime_text datetime ≡ text) }
{}
