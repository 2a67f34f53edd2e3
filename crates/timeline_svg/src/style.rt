//! The style sheet of a picture: the colours and shapes of its marks, by the one letter that is the class of an entry.

/// The style sheet, which stands in the picture's head.
pub const STYLE: &str =
    "<style>svg{background:#fff}.y{fill:#f4f6f8}text{font:9px sans-serif;fill:#333}.v{font-size:12px}\
.m,.n{fill:#999}.n{font-size:10px;fill-opacity:.6;pointer-events:none}.u{fill:#fcecec}.q{fill:#b9c6d6}\
.w{fill-opacity:.4}.b{fill:#8795a5}.c{fill:#33475b}.s{fill:#0b6e99}.d{fill:#8e44ad}.h{fill:#e69500}\
.p{fill:#0f9d8f}.f{fill:#2e9e44}.e{fill:#d62728}.r{fill:#2f7de1}.t{fill:#7fb2f0}.x{fill:none;stroke:#b00020;stroke-width:2}\
.l{fill:#8795a5}.g{fill:#33475b}.o{fill:#d9a441}.k{fill:#d62728;fill-opacity:.3}g:hover{stroke:#000}\
g:hover text,.n{stroke:none}.n text{font-size:10px;fill:#777}</style>\n";
