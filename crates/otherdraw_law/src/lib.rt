// Document 02, (xiv): what the other draw shows, that it changes least, and that there is none where the call gives 19. Definitions and
// theorems only.
#![tactic(auto)]
