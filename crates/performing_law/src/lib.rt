// What the street program's lines do, told by the library's own calls. Definitions and theorems only.
#![tactic(auto)]
