//! What a merge leaves in a file of which two versions stand.

/// What the lines begin with that a merge puts around and between two versions.
const MARKERS: &[&[u8]] = &[b"<<<<<<<", b"|||||||", b"=======", b">>>>>>>"];

/// Whether a line without its end is one that a merge puts there.
///
/// Its contract leaves open: all of it: which lines are markers is tried by `tools/try_check.py`.
pub fn is_merge_marker(line: &[u8]) -> bool {
    MARKERS.iter().any(|marker| line.starts_with(marker)
        && matches!(line.get(marker.len()), None | Some(b' ' | b'\r')))
}

/// Behind how many bytes of a text the first such line begins. No line of a JSON text begins so.
pub(crate) fn marker_in(text: &[u8]) -> Option<usize> {
    let mut behind = 0usize;
    for line in text.split(|byte| *byte == b'\n') {
        if is_merge_marker(line) {
            return Some(behind);
        }
        behind = behind.saturating_add(line.len()).saturating_add(1);
    }
    None
}
