use script_text::LineList;
use xdp_state::Library;

/// What a run needs: the lines of a script, and what their commands name.
#[derive(Debug, Drop)]
pub struct Prepared {
    pub library: Library,
    pub lines: LineList,
}
