ghost use Rattle.zk_line_protocol.specs.Spelled.{LinesSay, LinesSayInMulti};

/// Outside a multi, a line is parsed as a kind exactly if its text has that kind's form.
pub fn lines_say_what_they_spell()
    ensures { LinesSay }
{}

/// Inside a multi, a line is parsed as a kind exactly if its text has that kind's form.
pub fn parts_say_what_they_spell()
    ensures { LinesSayInMulti }
{}
