ghost use Rattle.std.specs.Prelude.{◌≡◌, ◌≢◌, ◌∷◌, ◌<◌, [], length};
ghost use Rattle.zk_listing.specs.Lines.{lines_of};

/// Removes the first line from a text that is not empty; returns it without its newline.
pub fn next_line<'a>(text: &mut &'a str) -> &'a str
    requires { text.old.now ≢ [] }
    ensures line { lines_of text.old.now ≡ result.now ∷ lines_of text.new.now }
    ensures shorter { length text.new.now < length text.old.now }
{
    match text.split_once('\n') {
        Some((line, left)) => {
            *text = left;
            line
        }
        None => {
            let line = *text;
            *text = "";
            line
        }
    }
}
