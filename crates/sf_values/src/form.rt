/// How a text is written: `'..'`, or with escapes, `E'..'`.
pub(crate) enum Form {
    Quoted,
    Escaped,
}
