#![tactic(auto)]

// How a text is cut into lines: a definition in specs/, for rooms that know no machine as well. No code.
