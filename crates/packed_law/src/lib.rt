// A post's file, fed to the street program, loads what the draw loads straight. Definitions and theorems only.
#![tactic(auto)]
